// Names of structures, roots and fields.
ghost use Rattle.std.specs.Prelude.{◌≡◌, ◌++◌, OnOk, encode_utf8_all};
ghost use Rattle.std.specs.Option.{option_copied};
ghost use Rattle.gt_canon.specs.Names.{fields_inside as fields_inside_of, fields_of_type as fields_of_type_of, name_if_field, root_name, structure_name};

use gt_types::{Bytes, Field, Program, Ty, TypeId, Word};
use std::alloc::AllocError;

/// Adds a name.
pub fn push_name(text: &mut Bytes, name: &Word) -> Result<(), AllocError>
    ensures added { OnOk result (text.new ≡ text.old ++ encode_utf8_all name.now) }
{
    text.append(name.as_str().as_bytes())
}

/// Adds the name of a structure, or nothing where the program has none of this number.
pub fn push_structure_name(
    text: &mut Bytes,
    program: &Program,
    id: TypeId,
) -> Result<(), AllocError>
    ensures added { OnOk result (text.new ≡ text.old ++ structure_name program.now id) }
{
    match program.structures.get(id.0 as usize) {
        Some(s) => push_name(text, &s.name),
        None => Ok(()),
    }
}

/// Adds the name of a root, or nothing where the program has none at this place.
pub fn push_root_name(text: &mut Bytes, program: &Program, place: u32) -> Result<(), AllocError>
    ensures added { OnOk result (text.new ≡ text.old ++ root_name program.now place) }
{
    match program.roots.get(place as usize) {
        Some(r) => push_name(text, &r.name),
        None => Ok(()),
    }
}

/// Adds the name of a field, or nothing where there is none.
pub fn push_field_name(text: &mut Bytes, field: Option<&Field>) -> Result<(), AllocError>
    ensures added { OnOk result (text.new ≡ text.old ++ name_if_field (option_copied field.entry)) }
{
    match field {
        Some(f) => push_name(text, &f.name),
        None => Ok(()),
    }
}

/// The fields of the structure that a field holds by value, or none where it holds none.
pub fn fields_inside<'a>(program: &'a Program, field: Option<&'a Field>) -> &'a [Field]
    ensures fields { result.now ≡ fields_inside_of program.now (option_copied field.entry) }
{
    match field {
        Some(f) => fields_of_type(program, &f.ty),
        None => &[],
    }
}

fn fields_of_type<'a>(program: &'a Program, ty: &Ty) -> &'a [Field]
    ensures fields { result.now ≡ fields_of_type_of program.now ty.now }
{
    match ty {
        Ty::Node { id, .. } => match program.structures.get(id.0 as usize) {
            Some(s) => s.fields.as_slice(),
            None => &[],
        },
        _ => &[],
    }
}
