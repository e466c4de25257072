// In which field a path ends.
ghost use Rattle.std.specs.Prelude.{◌≡◌, ◌↔◌, true, Some, option_copied};
ghost use Rattle.gt_starts.specs.Ways.{name_at};
ghost use Rattle.gt_leaf.specs.Ends.{name_in, last_name};

use crate::types::part_at;
use gt_types::{Program, Ty, TypeId, Word};

// The name of the field at a place of a structure.
fn name_at<'a>(program: &'a Program, id: TypeId, i: u32) -> Option<&'a Word>
    ensures { option_copied result ≡ name_at program.now id i }
{
    let structure = program.structures.get(id.0 as usize)?;
    let field = structure.fields.get(i as usize)?;
    Some(&field.name)
}

// The name of the field at a place of a value.
fn name_in<'a>(program: &'a Program, ty: &'a Ty, i: u32) -> Option<&'a Word>
    ensures { option_copied result ≡ name_in program.now ty.now i }
{
    match ty {
        Ty::Node { id, .. } => name_at(program, *id, i),
        _ => None,
    }
}

// The name of the field in which a path from a value ends.
fn last_name<'a>(program: &'a Program, ty: Option<&'a Ty>, path: &[u32]) -> Option<&'a Word>
    ensures { option_copied result ≡ last_name program.now (option_copied ty.entry) path.now }
{
    let Some(ty) = ty else {
        return None;
    };
    let [i, rest @ ..] = path else {
        return None;
    };
    if rest.is_empty() {
        return name_in(program, ty, *i);
    }
    last_name(program, part_at(program, ty, *i), rest)
}

/// Whether a path from a value ends in a field of this name. It takes no memory, and its time grows with the path and the name.
pub fn ends_in(program: &Program, ty: Option<&Ty>, path: &[u32], name: &Word) -> bool
    ensures { result ≡ true ↔ (last_name program.now (option_copied ty.entry) path.now ≡ Some name.now) }
{
    match last_name(program, ty, path) {
        Some(last) => last == name,
        None => false,
    }
}
