// Whether fields have distinct names.
ghost use Rattle.std.specs.Prelude.{◌≡◌, ◌≢◌, ◌≤◌, true, List, length, Some, slice_get, All, AllPairs};
ghost use Rattle.gt_types.specs.declared.limits.TheConstants.{MAX_STRUCTURES};
ghost use Rattle.gt_types.specs.declared.program.Structure.{Structure};
ghost use Rattle.gt_fields.specs.FieldNames.{AreNamesOf};
ghost use Rattle.gt_fields.specs.Places.{bind, place_in};

use gt_fields::FieldNames;
use gt_types::{Field, Program, TypeId};

// Whether a field, which is at a place, is the first of its name.
fn is_first(names: &FieldNames, node: TypeId, place: usize, f: &Field) -> bool
    ensures first { result ≡ true → (structures : List Structure) → AreNamesOf structures names.now → bind (slice_get structures node.0) (place_in f.now.name) ≡ Some place }
{
    match names.place(node, &f.name) {
        Some(first) => first as usize == place,
        None => false,
    }
}

// Whether no two fields of a structure have one name.
fn has_distinct_names(names: &FieldNames, node: TypeId, fields: &[Field]) -> bool
    ensures distinct { result ≡ true → (structures : List Structure) → AreNamesOf structures names.now → AllPairs (λ f g. f.name ≢ g.name) fields.now }
{
    for (place, f) in fields.iter().enumerate() {
        if !is_first(names, node, place, f) {
            return false;
        }
    }
    true
}

/// Whether no structure has two fields of one name.
pub fn are_distinct(program: &Program, names: &FieldNames) -> bool
    requires few { length program.now.structures ≤ MAX_STRUCTURES }
    requires names { AreNamesOf program.now.structures names.now }
    ensures distinct { result ≡ true → All (λ s. AllPairs (λ f g. f.name ≢ g.name) s.fields) program.now.structures }
{
    for (place, s) in program.structures.as_slice().iter().enumerate() {
        if !has_distinct_names(names, TypeId(place as u32), s.fields.as_slice()) {
            return false;
        }
    }
    true
}
