// Names of structures and of fields.
ghost use Rattle.std.specs.Prelude.{◌≡◌, ◌++◌, OnOk, encode_utf8_all};
ghost use Rattle.gt_show.specs.Shown.{name_of};

use gt_types::{Bytes, Program, TypeId, Word};
use std::alloc::AllocError;

/// Adds a name.
pub fn push_name(text: &mut Bytes, name: &Word) -> Result<(), AllocError>
    ensures added { OnOk result (text.new ≡ text.old ++ encode_utf8_all name.now) }
{
    text.append(name.as_str().as_bytes())
}

/// Adds the name of a structure, or nothing where the program has none of this number.
pub fn push_structure_name(
    text: &mut Bytes,
    program: &Program,
    node: TypeId,
) -> Result<(), AllocError>
    ensures added { OnOk result (text.new ≡ text.old ++ name_of program.now node) }
{
    match program.structures.get(node.0 as usize) {
        Some(s) => push_name(text, &s.name),
        None => Ok(()),
    }
}
