// What pointers name.
ghost use Rattle.std.specs.Prelude.{◌≡◌, ◌++◌, Some, IsTrue, OnOk};
ghost use Rattle.gt_types.specs.Shapes.{is_pointer};
ghost use Rattle.gt_tree.specs.Blocks.{Block};
ghost use Rattle.gt_show.specs.Shown.{target_text, pointed_text, count_text};
ghost use Rattle.gt_show.specs.Parts.{MayPoint};

use crate::names::push_structure_name;
use crate::strings::push_string;
use gt_digits::push_decimal;
use gt_types::{Bytes, Program, PtrKind, Target, Ty};
use gt_value::BlockNames;
use std::alloc::{AllocError, Global};

// Adds what a pointer points to.
fn push_pointed(
    text: &mut Bytes,
    program: &Program,
    target: Option<Target>,
) -> Result<(), AllocError>
    ensures added { OnOk result (text.new ≡ text.old ++ pointed_text program.now target) }
{
    match target {
        Some(Target::Node(node)) => push_structure_name(text, program, node),
        Some(Target::Pointers(node)) => {
            push_structure_name(text, program, node)?;
            text.push(b'*')
        }
        Some(Target::Strings) => text.append(b"char*"),
        None => text.append(b"raw"),
    }
}

// Adds how many elements a block has, where its pointer is not plain.
fn push_count(alloc: Global, text: &mut Bytes, kind: &PtrKind, count: u32) -> Result<(), AllocError>
    ensures added { OnOk result (text.new ≡ text.old ++ count_text kind.now count) }
{
    if let PtrKind::Plain = kind {
        return Ok(());
    }
    text.push(b'[')?;
    push_decimal(alloc, text, u64::from(count))?;
    text.push(b']')
}

/// Adds what a pointer names: the block at an address.
pub fn push_target<N: BlockNames>(
    alloc: Global,
    text: &mut Bytes,
    program: &Program,
    names: &N,
    ty: &Ty,
    addr: u64,
) -> Result<(), AllocError>
    requires named { MayPoint (N.blocks names.now) ty.now addr }
    ensures added { (b : Block) → N.blocks names.now addr ≡ Some b → OnOk result (text.new ≡ text.old ++ target_text program.now ty.now b) }
{
    let Some(block) = names.block(addr) else {
        unreachable!()
    };
    match ty {
        Ty::Str(_) => push_string(text, names, addr, block.count),
        Ty::Ptr { target, kind, .. } => {
            text.push(b'&')?;
            push_pointed(text, program, *target)?;
            push_count(alloc, text, kind, block.count)
        }
        _ => Ok(()),
    }
}
