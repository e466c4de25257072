// The places of fields on a path.
ghost use Rattle.std.specs.Prelude.{◌≡◌, ◌∷◌, ◌++◌, [], option_map, slice_get, IfOk};
ghost use Rattle.std.specs.Option.{option_copied};
ghost use Rattle.gt_declare.specs.Programs.{structure_in, places_on, own_path, path_places};
ghost use Rattle.gt_fields.specs.FieldNames.{AreNamesOf};
ghost use Rattle.gt_declare.specs.Steps.{inner_of};

use gt_expr::RawExpr;
use gt_fields::FieldNames;
use gt_items::Parameter;
use gt_types::{Base, List, Structure, Ty, TypeId, Word};
use std::alloc::{AllocError, Global};

// The structure by value that a type is.
fn structure_in(ty: &Ty) -> Option<TypeId>
    ensures { result ≡ structure_in ty.now }
{
    match ty {
        Ty::Node { id, .. } => Some(*id),
        _ => None,
    }
}

// The structure by value that the field at a place is.
fn inner_of(structures: &[Structure], from: TypeId, place: u32) -> Option<TypeId>
    ensures { result ≡ inner_of structures.now from place }
{
    match structures.get(from.0 as usize) {
        None => None,
        Some(structure) => match structure.fields.get(place as usize) {
            None => None,
            Some(field) => structure_in(&field.ty),
        },
    }
}

// Places with one more at the end.
fn with_place(before: List<u32>, place: u32) -> Result<List<u32>, AllocError>
    ensures added { IfOk result (λ made. made ≡ before ++ place ∷ []) }
{
    let mut places = before;
    places.push(place)?;
    Ok(places)
}

// The places on a path from a structure, after others.
fn places_after(
    structures: &[Structure],
    names: &FieldNames,
    from: TypeId,
    path: &[Word],
    before: List<u32>,
) -> Result<Option<List<u32>>, AllocError>
    requires names { AreNamesOf structures.now names.now }
    ensures places { IfOk result (λ places. places ≡ option_map (λ rest. before ++ rest) (places_on structures.now from path.now)) }
{
    match path {
        [] => Ok(None),
        [name, rest @ ..] => {
            let Some(place) = names.place(from, name) else {
                return Ok(None);
            };
            let places = with_place(before, place)?;
            if rest.is_empty() {
                return Ok(Some(places));
            }
            let Some(inner) = inner_of(structures, from, place) else {
                return Ok(None);
            };
            places_after(structures, names, inner, rest, places)
        }
    }
}

// The path of a parameter that is no more than a path from its own structure.
fn own_path(parameter: &Parameter) -> Option<&List<Word>>
    ensures path { option_copied result ≡ own_path parameter.now }
{
    match parameter {
        Parameter::Expression(
            RawExpr::Path {
                base: Base::Here,
                steps,
            },
        ) => Some(steps),
        _ => None,
    }
}

/// The places of the fields on the path of an option, or None where it is no path from its own structure or leads nowhere. It fails only
/// if memory runs out.
pub fn path_places(
    alloc: Global,
    structures: &[Structure],
    names: &FieldNames,
    from: TypeId,
    parameter: &Parameter,
) -> Result<Option<List<u32>>, AllocError>
    requires names { AreNamesOf structures.now names.now }
    ensures places { IfOk result (λ places. places ≡ path_places structures.now from parameter.now) }
{
    match own_path(parameter) {
        None => Ok(None),
        Some(path) => places_after(structures, names, from, path.as_slice(), List::new(alloc)),
    }
}
