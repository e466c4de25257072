// Which options stand in a marker.
ghost use Rattle.std.specs.Prelude.{◌≡◌, ◌==◌, ◌||◌, ◌&&◌, ◌++◌, ◌∷◌, [], List};
ghost use Rattle.std.specs.List.{list_any};
ghost use Rattle.gt_items.specs.declared.items.RawOption.{RawOption};
ghost use Rattle.gt_markers.specs.Options.{exclude};
ghost use Rattle.gt_markers.specs.KindSets.{all_kinds, has_kind, place_of, AreKindsOf};

use crate::kinds::OptionKind;
use gt_items::RawOption;

const ALL: [OptionKind; 16] = [
    OptionKind::Skip,
    OptionKind::Length,
    OptionKind::Desc,
    OptionKind::Tag,
    OptionKind::Default,
    OptionKind::Cache,
    OptionKind::Deletable,
    OptionKind::MaybeUndef,
    OptionKind::ChainNext,
    OptionKind::ChainPrev,
    OptionKind::ChainCircular,
    OptionKind::Atomic,
    OptionKind::StringLength,
    OptionKind::VariableSize,
    OptionKind::ForUser,
    OptionKind::Reorder,
];

/// The kinds of some options. What is asked of all of them, or of those before one, is answered from here, so that the time of a marker is
/// linear in its options.
#[derive(Clone, Copy)]
pub struct Kinds {
    held: [bool; 16],
}

fn place_of(kind: OptionKind) -> usize
    ensures place { result ≡ place_of kind }
{
    kind as usize
}

impl Kinds {
    /// Those of no options.
    pub fn none() -> Kinds
        ensures none { AreKindsOf [] result }
    {
        Kinds { held: [false; 16] }
    }

    /// Whether a kind is among them.
    pub fn has(self, kind: OptionKind) -> bool
        ensures has { result ≡ has_kind self kind }
    {
        self.held[place_of(kind)]
    }

    /// Whether one of them may not stand beside this one.
    pub fn exclude(self, kind: OptionKind) -> bool
        ensures excluded { result ≡ list_any (λ other. has_kind self other && exclude kind other) all_kinds }
    {
        ALL.iter()
            .any(|other| self.has(*other) && kind.excludes(*other))
    }

    fn with_kind(self, kind: OptionKind) -> Kinds
        ensures with { (other : OptionKind) → has_kind result other ≡ (has_kind self other || (place_of kind == place_of other)) }
    {
        let mut held = self.held;
        held[place_of(kind)] = true;
        Kinds { held }
    }

    /// With that of one more option, where it is known.
    pub fn with(self, option: &RawOption) -> Kinds
        ensures with { (options : List RawOption) → AreKindsOf options self → AreKindsOf (options ++ option.now ∷ []) result }
    {
        match OptionKind::of(&option.name.word) {
            Some(kind) => self.with_kind(kind),
            None => self,
        }
    }

    /// Those of some options.
    pub fn of(options: &[RawOption]) -> Kinds
        ensures kinds { AreKindsOf options.now result }
    {
        let mut kinds = Kinds::none();
        for option in options {
            kinds = kinds.with(option);
        }
        kinds
    }
}
