// Where options may stand.
ghost use Rattle.std.specs.Prelude.{◌≡◌, ◌&&◌, not, List};
ghost use Rattle.gt_markers.specs.Sites.{is_single, are_pointers, is_pointer, is_string, is_counted, is_last_array, holds_unions, is_sorted, may_stand, at_field, at_structure, at_root, at_cache, wrong_number, is_passed_over, points_to_characters, points_to_many, is_sorted_base, is_union_at};
ghost use Rattle.gt_items.specs.declared.items.RawOption.{RawOption};
ghost use Rattle.gt_drafts.specs.declared.draft.DraftStructure.{DraftStructure};
ghost use Rattle.gt_markers.specs.SiteViews.{site_of};
ghost use Rattle.gt_markers.specs.KindSets.{has_kind, AreKindsOf};
ghost use Rattle.gt_markers.specs.Options.{stands_beside_skip};
ghost use Rattle.gt_markers.specs.declared.kinds.OptionKind.TheVariants.{Skip};
ghost use Rattle.gt_drafts.specs.Undefined.{is_zero};
ghost use Rattle.gt_drafts.specs.Shapes.{held_type};

use crate::kind_sets::Kinds;
use crate::kinds::OptionKind;
use crate::{CACHE_SHAPE, WRONG_PLACE};
use gt_drafts::{BaseType, DeclaredType, DraftStructure};
use gt_items::Stars;

/// Where a marker stands: at a field, which is one of a union or not, and the last or not; at a structure; at a root; at a cache.
#[derive(Clone, Copy)]
pub enum Site<'a> {
    Field {
        in_union: bool,
        last: bool,
        ty: &'a DeclaredType,
    },
    Structure {
        is_union: bool,
    },
    Root {
        ty: &'a DeclaredType,
    },
    Cache,
}

// ---- types by their spelling

fn is_zero(stars: Stars) -> bool
    ensures { result ≡ is_zero stars }
{
    matches!(stars, Stars::Zero)
}

// No array and no pointer to a function.
fn is_single(ty: &DeclaredType) -> bool
    ensures { result ≡ is_single ty.now }
{
    ty.bounds.is_empty() && !ty.is_function
}

// A pointer, or an array of them.
fn are_pointers(ty: &DeclaredType) -> bool
    ensures { result ≡ are_pointers ty.now }
{
    !ty.is_function && !is_zero(ty.resolved.stars)
}

fn is_pointer(ty: &DeclaredType) -> bool
    ensures { result ≡ is_pointer ty.now }
{
    ty.bounds.is_empty() && are_pointers(ty)
}

fn points_to_characters(base: &BaseType, stars: Stars) -> bool
    ensures { result ≡ points_to_characters base.now stars }
{
    match (base, stars) {
        (BaseType::Number { is_char: true, .. }, Stars::One) => true,
        _ => false,
    }
}

fn is_string(ty: &DeclaredType) -> bool
    ensures { result ≡ is_string ty.now }
{
    is_single(ty) && points_to_characters(&ty.resolved.base, ty.resolved.stars)
}

fn points_to_many(base: &BaseType, stars: Stars) -> bool
    ensures { result ≡ points_to_many base.now stars }
{
    match (base, stars) {
        (BaseType::Structure(_), Stars::One | Stars::Two) => true,
        (BaseType::Number { is_char: true, .. }, Stars::Two) => true,
        _ => false,
    }
}

// A pointer to structures, to pointers to structures, or to strings.
fn is_counted(ty: &DeclaredType) -> bool
    ensures { result ≡ is_counted ty.now }
{
    is_single(ty) && points_to_many(&ty.resolved.base, ty.resolved.stars)
}

// The array at the end of a struct.
fn is_last_array(in_union: bool, last: bool, ty: &DeclaredType) -> bool
    ensures { result ≡ is_last_array in_union last ty.now }
{
    !in_union && last && !ty.bounds.is_empty() && !ty.is_function
}

// The structure that something of this type contains by value, alone or in an array.
fn held_type(ty: &DeclaredType) -> Option<usize>
    ensures { result ≡ held_type ty.now }
{
    match (&ty.resolved.base, ty.resolved.stars, ty.is_function) {
        (BaseType::Structure(id), Stars::Zero, false) => Some(*id),
        _ => None,
    }
}

fn is_union_at(structures: &[DraftStructure], id: usize) -> bool
    ensures { result ≡ is_union_at structures.now id }
{
    match structures.get(id) {
        Some(structure) => structure.is_union,
        None => false,
    }
}

// A union by value, or an array of unions.
fn holds_unions(structures: &[DraftStructure], ty: &DeclaredType) -> bool
    ensures { result ≡ holds_unions structures.now ty.now }
{
    match held_type(ty) {
        Some(id) => is_union_at(structures, id),
        None => false,
    }
}

fn is_sorted_base(counted: bool, base: &BaseType, stars: Stars) -> bool
    ensures { result ≡ is_sorted_base counted base.now stars }
{
    match (counted, base, stars) {
        (false, BaseType::Structure(_), Stars::One) => true,
        (true, BaseType::Structure(_), Stars::Two) => true,
        _ => false,
    }
}

// Whether what has `length` and `atomic` or not may be sorted in an image.
fn is_sortable(counted: bool, atomic: bool, ty: &DeclaredType) -> bool
    ensures { result ≡ (is_single ty.now && is_sorted_base counted ty.now.resolved.base ty.now.resolved.stars && not atomic) }
{
    is_single(ty) && is_sorted_base(counted, &ty.resolved.base, ty.resolved.stars) && !atomic
}

// What may be sorted in an image: a pointer to one structure, or to pointers with `length`; none whose block is never scanned.
fn is_sorted(all: Kinds, ty: &DeclaredType) -> bool
    ensures { (options : List RawOption) → AreKindsOf options all → result ≡ is_sorted options ty.now }
{
    let counted = all.has(OptionKind::Length);
    let atomic = all.has(OptionKind::Atomic);
    is_sortable(counted, atomic, ty)
}

// ---- where options may stand

// Whether an option may stand at a field, beside those of these kinds.
fn may_stand_at_field(
    structures: &[DraftStructure],
    in_union: bool,
    last: bool,
    ty: &DeclaredType,
    all: Kinds,
    kind: OptionKind,
) -> bool
    ensures { (options : List RawOption) → AreKindsOf options all → result ≡ may_stand structures.now (at_field in_union last ty.now) options kind }
{
    match kind {
        OptionKind::Skip => true,
        OptionKind::Length => is_last_array(in_union, last, ty) || is_counted(ty),
        OptionKind::Desc => holds_unions(structures, ty),
        OptionKind::Tag | OptionKind::Default => in_union,
        OptionKind::MaybeUndef | OptionKind::Atomic => is_pointer(ty),
        OptionKind::StringLength => is_string(ty),
        OptionKind::Reorder => is_sorted(all, ty),
        _ => false,
    }
}

// Whether an option may stand at a structure.
fn may_stand_at_structure(is_union: bool, kind: OptionKind) -> bool
    ensures { (structures : List DraftStructure) (options : List RawOption) → result ≡ may_stand structures (at_structure is_union) options kind }
{
    match kind {
        OptionKind::Desc => is_union,
        OptionKind::ChainNext
        | OptionKind::ChainPrev
        | OptionKind::ChainCircular
        | OptionKind::VariableSize
        | OptionKind::ForUser => true,
        _ => false,
    }
}

fn may_stand_at_cache(kind: OptionKind) -> bool
    ensures { (structures : List DraftStructure) (options : List RawOption) → result ≡ may_stand structures at_cache options kind }
{
    matches!(kind, OptionKind::Cache)
}

// Whether an option may stand at a root, beside those of these kinds.
fn may_stand_at_root(
    structures: &[DraftStructure],
    ty: &DeclaredType,
    all: Kinds,
    kind: OptionKind,
) -> bool
    ensures { (options : List RawOption) → AreKindsOf options all → result ≡ may_stand structures.now (at_root ty.now) options kind }
{
    match kind {
        OptionKind::Length => is_counted(ty),
        OptionKind::Desc => holds_unions(structures, ty),
        OptionKind::Deletable => are_pointers(ty),
        OptionKind::Atomic => is_pointer(ty),
        OptionKind::Reorder => is_sorted(all, ty),
        _ => false,
    }
}

// Whether `skip` stands there, and passes over an option.
fn is_skipped(all: Kinds, kind: OptionKind) -> bool
    ensures skipped { result ≡ (has_kind all Skip && not (stands_beside_skip kind)) }
{
    all.has(OptionKind::Skip) && !kind.stands_beside_skip()
}

impl<'a> Site<'a> {
    /// Whether an option may stand there, beside those of these kinds.
    pub(crate) fn may_hold(
        self,
        structures: &[DraftStructure],
        all: Kinds,
        kind: OptionKind,
    ) -> bool
        ensures may { (options : List RawOption) → AreKindsOf options all → result ≡ may_stand structures.now (site_of self.entry) options kind }
    {
        match self {
            Site::Field { in_union, last, ty } => {
                may_stand_at_field(structures, in_union, last, ty, all, kind)
            }
            Site::Structure { is_union } => may_stand_at_structure(is_union, kind),
            Site::Root { ty } => may_stand_at_root(structures, ty, all, kind),
            Site::Cache => may_stand_at_cache(kind),
        }
    }

    /// The number of the fault of an option that may not stand there.
    pub fn wrong_number(self, kind: OptionKind) -> u8
        ensures number { result ≡ wrong_number (site_of self.entry) kind }
    {
        match (self, kind) {
            (Site::Root { .. }, OptionKind::Cache) => CACHE_SHAPE,
            _ => WRONG_PLACE,
        }
    }

    /// Whether `skip` passes over an option there, beside those of these kinds.
    pub(crate) fn passes_over(self, all: Kinds, kind: OptionKind) -> bool
        ensures passes { (options : List RawOption) → AreKindsOf options all → result ≡ is_passed_over (site_of self.entry) options kind }
    {
        match self {
            Site::Field { .. } => is_skipped(all, kind),
            _ => false,
        }
    }
}
