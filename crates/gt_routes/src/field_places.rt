// The places of fields by their names.
ghost use Rattle.std.specs.Prelude.{◌≡◌, ◌≤◌, length, slice_get};
ghost use Rattle.std.specs.List.{position_from};
ghost use Rattle.std.specs.Str.{bytes_eq};
ghost use Rattle.gt_fields.specs.FieldNames.{AreNamesOf};
ghost use Rattle.gt_fields.specs.Places.{bind, place_in};

use gt_fields::FieldNames;
use gt_types::{Field, Program, TypeId, Word};

// How many fields are looked at one after another. This is faster than a look into the table where they are few.
const FEW_FIELDS: usize = 8;

// The place of the first field of a name.
fn find_field(fields: &[Field], name: &Word) -> Option<usize>
    ensures { result ≡ position_from (λ f. bytes_eq f.name name.now) 0 fields.now }
{
    fields.iter().position(|f| f.name == *name)
}

// The place of the first of a few fields that has a name.
fn find_in_few(fields: &[Field], name: &Word) -> Option<u32>
    requires few { length fields.now ≤ 8 }
    ensures place { result ≡ position_from (λ f. bytes_eq f.name name.now) 0 fields.now }
{
    match find_field(fields, name) {
        Some(place) => Some(place as u32),
        None => None,
    }
}

/// The place of a field of a structure, by its name. None where there is no such field.
pub fn place_of_field(
    program: &Program,
    fields: &FieldNames,
    node: TypeId,
    name: &Word,
) -> Option<u32>
    requires fields { AreNamesOf program.now.structures fields.now }
    ensures place { result ≡ bind (slice_get program.now.structures node.0) (place_in name.now) }
{
    let structure = program.structures.get(node.0 as usize)?;
    if structure.fields.len() > FEW_FIELDS {
        return fields.place(node, name);
    }
    find_in_few(structure.fields.as_slice(), name)
}
