// What types of a script mean.
ghost use Rattle.std.specs.Prelude.{◌≡◌, ◌≢◌, IsTrue, MatchBool, MatchOption, Some};
ghost use Rattle.std.specs.List.{list_all};
ghost use Rattle.std.specs.Char.{is_ascii};
ghost use Rattle.std.specs.Str.{bytes_eq};
ghost use Rattle.gt_types.specs.declared.types.TypeId.{TypeId};
ghost use Rattle.gt_types.specs.declared.program.Structure.{Structure};
ghost use Rattle.gt_types.specs.declared.program.Typedef.{Typedef};
ghost use Rattle.gt_types.specs.Contains.{HasStructure};
ghost use Rattle.gt_types.specs.Settled.{Settled};
ghost use Rattle.gt_tree.specs.Blocks.{Kind, Nodes};
ghost use Rattle.gt_value.specs.Names.{kind_of};
ghost use Rattle.gt_next.specs.Kinds.{IsWordOf, IsKindOf, NamesNodes};
ghost use Rattle.gt_kinds.specs.Names.{AreNamesOf};
ghost use Rattle.gt_kinds.specs.declared.meaning.Meaning.TheVariants.{Node, Pointer};
ghost use Rattle.gt_kinds.specs.Meanings.{IsOfStrings, Means, meaning_of};

use crate::index::ProgramNames;
use gt_paths::may_stand;
use gt_script::TypeName;
use gt_types::{Program, TypeId, Typedef, Word};
use gt_value::BlockKind;

// What a name alone means: a structure, or a pointer to one.
#[derive(Clone, Copy)]
enum Meaning {
    Node(TypeId),
    Pointer(TypeId),
}

// Whether a word is this one of ASCII characters.
fn is_word(word: &Word, ascii: &str) -> bool
    requires ascii { IsTrue (list_all is_ascii ascii.now) }
    ensures same { result ≡ bytes_eq word.now ascii.now }
{
    word.as_str() == ascii
}

// What a typedef means.
fn meaning_of(word: &Typedef) -> Meaning
    ensures { result ≡ meaning_of word.now }
{
    if word.pointer {
        Meaning::Pointer(word.id)
    } else {
        Meaning::Node(word.id)
    }
}

// Whether a type means strings.
fn means_strings(ty: &TypeName) -> bool
    ensures strings { MatchBool result (IsOfStrings ty.now) (¬ IsOfStrings ty.now) }
{
    ty.star && is_word(&ty.name, "char")
}

// The structure, if elements are structures.
fn node_in(kind: BlockKind) -> Option<TypeId>
    ensures node { MatchOption result ((node : TypeId) → kind_of kind ≢ Nodes node) (λ node. kind_of kind ≡ Nodes node) }
{
    match kind {
        BlockKind::Nodes(node) => Some(node),
        BlockKind::Pointers(_) | BlockKind::Strings => None,
        BlockKind::Chars | BlockKind::Raw => None,
    }
}

impl ProgramNames {
    // The typedef of a name.
    fn word<'a>(&self, program: &'a Program, name: &Word) -> Option<&'a Typedef>
        requires names { AreNamesOf program.now self.now }
        ensures word { MatchOption result ((w : Typedef) → ¬ IsWordOf program.now name.now w) (λ w. IsWordOf program.now name.now w.now) }
    {
        match self.words.get(name) {
            None => None,
            Some(place) => program.words.get(*place),
        }
    }

    // The structure of a tag.
    fn tag(&self, program: &Program, name: &Word) -> Option<TypeId>
        requires settled { Settled program.now }
        requires names { AreNamesOf program.now self.now }
        ensures tag { MatchOption result ((node : TypeId) (s : Structure) → HasStructure program.now node s → s.name ≢ name.now) (λ node. (s : Structure) × HasStructure program.now node s × (s.name ≡ name.now)) }
    {
        match self.tags.get(name) {
            None => None,
            Some(place) => Some(TypeId(*place as u32)),
        }
    }

    // What a name alone means.
    fn meaning(&self, program: &Program, name: &Word) -> Option<Meaning>
        requires settled { Settled program.now }
        requires names { AreNamesOf program.now self.now }
        ensures means { Means program.now name.now result }
    {
        match self.word(program, name) {
            Some(word) => Some(meaning_of(word)),
            None => match self.tag(program, name) {
                Some(node) => Some(Meaning::Node(node)),
                None => None,
            },
        }
    }

    // What the elements of a type are whose name means a structure.
    fn kind_of_node(&self, program: &Program, ty: &TypeName, node: TypeId) -> Option<BlockKind>
        requires names { AreNamesOf program.now self.now }
        requires means { Means program.now ty.now.name (Some (Node node)) }
        requires other { ¬ IsOfStrings ty.now }
        ensures kind { MatchOption result ((kind : Kind) → ¬ IsKindOf program.now ty.now kind) (λ kind. IsKindOf program.now ty.now (kind_of kind)) }
    {
        if !may_stand(program, &self.standing, node) {
            None
        } else if ty.star {
            Some(BlockKind::Pointers(node))
        } else {
            Some(BlockKind::Nodes(node))
        }
    }

    // What the elements of a type are whose name means a pointer to a structure.
    fn kind_of_pointer(&self, program: &Program, ty: &TypeName, node: TypeId) -> Option<BlockKind>
        requires names { AreNamesOf program.now self.now }
        requires means { Means program.now ty.now.name (Some (Pointer node)) }
        requires other { ¬ IsOfStrings ty.now }
        ensures kind { MatchOption result ((kind : Kind) → ¬ IsKindOf program.now ty.now kind) (λ kind. IsKindOf program.now ty.now (kind_of kind)) }
    {
        if ty.star {
            None
        } else if may_stand(program, &self.standing, node) {
            Some(BlockKind::Pointers(node))
        } else {
            None
        }
    }

    /// What the elements of a type of a script are: structures, pointers to such, or strings. None where there is no such type, or its
    /// structure may not stand alone.
    pub fn kind(&self, program: &Program, ty: &TypeName) -> Option<BlockKind>
        requires settled { Settled program.now }
        requires names { AreNamesOf program.now self.now }
        ensures kind { MatchOption result ((kind : Kind) → ¬ IsKindOf program.now ty.now kind) (λ kind. IsKindOf program.now ty.now (kind_of kind)) }
    {
        if means_strings(ty) {
            return Some(BlockKind::Strings);
        }
        match self.meaning(program, &ty.name) {
            None => None,
            Some(Meaning::Node(node)) => self.kind_of_node(program, ty, node),
            Some(Meaning::Pointer(node)) => self.kind_of_pointer(program, ty, node),
        }
    }

    /// The structure that a type of a script names; None where it names none that may stand alone.
    pub fn node(&self, program: &Program, ty: &TypeName) -> Option<TypeId>
        requires settled { Settled program.now }
        requires names { AreNamesOf program.now self.now }
        ensures node { MatchOption result ((node : TypeId) → ¬ NamesNodes program.now ty.now node) (NamesNodes program.now ty.now) }
    {
        match self.kind(program, ty) {
            Some(kind) => node_in(kind),
            None => None,
        }
    }
}
