// Second definitions with another meaning. A definition is held against the first of its name. Where some later one has another
// meaning than the first, the first is marked: each that comes after has another meaning than one of those two.
ghost use Rattle.std.specs.Prelude.{◌≡◌, [], None, Some, false, length, replicate, slice_get, IfOk};
ghost use Rattle.std.specs.Option.{option_map_or};
ghost use Rattle.gt_scope.specs.declared.declaration.Declaration.{Declaration};
ghost use Rattle.gt_resolve.specs.Faults.{agree, is_tag, redefinitions};
ghost use Rattle.gt_drafts.specs.FirstFaults.{first_from};
ghost use Rattle.gt_resolve.specs.Redefinitions.{agrees_at, first_place, first_places, is_clash, marked_faults, with_clash, with_first};
ghost use Rattle.gt_names.specs.Entries.{value_in};

use crate::REDEFINED;
use gt_drafts::{flag_at, same_bool, with_fault};
use gt_names::Table;
use gt_scope::{Declaration, Scope, What};
use gt_types::Fault;
use std::alloc::{AllocError, Global};

fn is_tag(what: &What) -> bool
    ensures tag { result ≡ is_tag what.now }
{
    match what {
        What::Structure { .. } | What::Enum { .. } => true,
        _ => false,
    }
}

fn with_first(
    alloc: Global,
    places: Table<usize>,
    tags: bool,
    d: &Declaration,
    place: usize,
) -> Result<Table<usize>, AllocError>
    ensures first { IfOk result (λ made. made ≡ with_first tags place d.now places) }
{
    if same_bool(tags, is_tag(&d.what)) {
        return places.with(alloc, &d.name.word, place);
    }
    Ok(places)
}

// The places of the first declarations of tags, or of the other names.
fn first_places(alloc: Global, ds: &[Declaration], tags: bool) -> Result<Table<usize>, AllocError>
    ensures places { IfOk result (λ made. made ≡ first_places tags 0 [] ds.now) }
{
    let mut made = Table::new(alloc);
    for (place, d) in ds.iter().enumerate() {
        made = with_first(alloc, made, tags, d, place)?;
    }
    Ok(made)
}

fn place_or(places: &Table<usize>, d: &Declaration, place: usize) -> usize
    ensures place { result ≡ option_map_or (λ first. first) (value_in places.now d.now.name.word) place }
{
    match places.get(&d.name.word) {
        None => place,
        Some(first) => *first,
    }
}

// The place of the first declaration of the name.
fn first_place(tags: &Table<usize>, others: &Table<usize>, d: &Declaration, place: usize) -> usize
    ensures place { result ≡ first_place tags.now others.now d.now place }
{
    if is_tag(&d.what) {
        return place_or(tags, d, place);
    }
    place_or(others, d, place)
}

// Whether two definitions of one name, at two places, may stand beside one another.
#[tactic(auto, unfolding(crate::specs::Faults::agree))]
fn agree(scope: &Scope, a: &What, place: usize, b: &What, first: usize) -> bool
    ensures agree { (d e : Declaration) → slice_get scope.now.declarations.items place ≡ Some d → d.what ≡ a.now
        → slice_get scope.now.declarations.items first ≡ Some e → e.what ≡ b.now → result ≡ agree scope.now.declarations.items scope.now.types.items a.now b.now }
{
    match a {
        What::Enum { is_signed } => match b {
            What::Enum { is_signed: other } => same_bool(*is_signed, *other),
            _ => false,
        },
        What::Constant(value) => match b {
            What::Constant(other) => *value == *other,
            _ => false,
        },
        What::Typedef { stars, .. } => match b {
            What::Typedef { stars: others, .. } => scope.mean_same(place, *stars, first, *others),
            _ => false,
        },
        What::Structure { .. } | What::Root | What::Cache => false,
    }
}

fn agrees_at(scope: &Scope, what: &What, place: usize, first: usize) -> bool
    ensures agrees { (d : Declaration) → slice_get scope.now.declarations.items place ≡ Some d → d.what ≡ what.now
        → result ≡ agrees_at scope.now.declarations.items scope.now.types.items what.now first }
{
    match scope.declarations.get(first) {
        None => true,
        Some(other) => agree(scope, what, place, &other.what, first),
    }
}

// Whether a definition has another meaning than the first of its name, or than one between that has another.
fn is_clash(scope: &Scope, clashed: &[bool], what: &What, first: usize, place: usize) -> bool
    ensures clash { (d : Declaration) → slice_get scope.now.declarations.items place ≡ Some d → d.what ≡ what.now
        → result ≡ is_clash scope.now.declarations.items scope.now.types.items clashed.now what.now first place }
{
    if first == place {
        return false;
    }
    if flag_at(clashed, first) {
        return true;
    }
    !agrees_at(scope, what, place, first)
}

fn mark(clashed: &mut Vec<bool>, clash: bool, first: usize)
    ensures marked { clashed.new.items ≡ with_clash clash first clashed.old.items }
{
    if clash && first < clashed.len() {
        clashed[first] = true;
    }
}

// The earliest second definition, by the places of first ones.
fn redefinition_by_places(
    alloc: Global,
    scope: &Scope,
    tags: &Table<usize>,
    others: &Table<usize>,
) -> Result<Option<Fault>, AllocError>
    ensures earliest { IfOk result (λ r. r ≡ first_from None (marked_faults scope.now.declarations.items scope.now.types.items tags.now others.now 0
        (replicate (length scope.now.declarations.items) false) scope.now.declarations.items)) }
{
    let mut clashed = vec![in alloc; false; scope.declarations.len()]?;
    let mut earliest = None;
    for (place, d) in scope.declarations.iter().enumerate() {
        let first = first_place(tags, others, d, place);
        let clash = is_clash(scope, &clashed, &d.what, first, place);
        mark(&mut clashed, clash, first);
        earliest = with_fault(earliest, clash, REDEFINED, d.file, d.name.at);
    }
    Ok(earliest)
}

/// The earliest second definition of a name with another meaning.
pub fn redefinition(alloc: Global, scope: &Scope) -> Result<Option<Fault>, AllocError>
    ensures earliest { IfOk result (λ r. r ≡ first_from None (redefinitions scope.now.declarations.items scope.now.types.items [] scope.now.declarations.items)) }
{
    let tags = first_places(alloc, &scope.declarations, true)?;
    let others = first_places(alloc, &scope.declarations, false)?;
    redefinition_by_places(alloc, scope, &tags, &others)
}
