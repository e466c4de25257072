//! How many bytes objects need.
ghost use Rattle.std.specs.Prelude.{MatchOption};
ghost use Rattle.gt_types.specs.Settled.{Settled};
ghost use Rattle.gt_layout.specs.Planes.{IsLaidOut};
ghost use Rattle.gt_layout.specs.Excess.{IsWithin};
ghost use Rattle.gt_tree.specs.Blocks.{element_type};
ghost use Rattle.gt_tree.specs.FixedLaws.{MayHold};
ghost use Rattle.gt_value.specs.Names.{kind_of};
ghost use Rattle.gt_value.specs.Bytes.{Takes};
ghost use Rattle.gt_objects.specs.Making.{HasSize, IsTooLarge};

use crate::objects::Known;
use gt_layout::Layouts;
use gt_pages::rounded_size;
use gt_store::node_size;
use gt_types::Program;
use gt_value::BlockKind;

/// How many bytes an element takes, with room for so many elements at its end.
pub fn element_size(program: &Program, layouts: &Layouts, kind: BlockKind, capacity: u32) -> u64
    requires settled { Settled program.now }
    requires laid { IsLaidOut program.now layouts.now }
    requires within { IsWithin program.now layouts.now }
    requires kind { MayHold program.now (kind_of kind) }
    ensures { Takes program.now layouts.now capacity (element_type program.now (kind_of kind)) result }
{
    match kind {
        BlockKind::Nodes(id) => node_size(program, layouts, id, capacity),
        BlockKind::Pointers(_) | BlockKind::Strings => 8,
        BlockKind::Chars | BlockKind::Raw => 1,
    }
}

/// The size in bytes of the block of an object of which this is known; None where the object is too large for a block.
pub fn block_size(program: &Program, layouts: &Layouts, known: Known) -> Option<u32>
    requires settled { Settled program.now }
    requires laid { IsLaidOut program.now layouts.now }
    requires within { IsWithin program.now layouts.now }
    requires kind { MayHold program.now (kind_of known.kind) }
    ensures size { MatchOption result (IsTooLarge program.now layouts.now known) (HasSize program.now layouts.now known) }
{
    let size = element_size(program, layouts, known.kind, known.capacity);
    let bytes = size.checked_mul(known.count as u64)?;
    match u32::try_from(bytes) {
        Ok(bytes) => rounded_size(bytes),
        Err(_) => None,
    }
}
