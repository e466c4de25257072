// Whether a new block can be zero.
ghost use Rattle.std.specs.Prelude.{IfOk};
ghost use Rattle.std.specs.Bool.{Decides};
ghost use Rattle.gt_types.specs.Settled.{Settled};
ghost use Rattle.gt_layout.specs.Planes.{IsLaidOut};
ghost use Rattle.gt_tree.specs.Trees.{Trees};
ghost use Rattle.gt_tree.specs.Blocks.{Blocks, element_type};
ghost use Rattle.gt_tree.specs.FixedLaws.{MayHold};
ghost use Rattle.gt_value.specs.Names.{kind_of};
ghost use Rattle.gt_graph.specs.Objects.{Graph};
ghost use Rattle.gt_held.specs.Types.{AreElementTypesOf};
ghost use Rattle.gt_held.specs.Zeros.{HasZero, HasZeroElement};

use crate::types::ElementTypes;
use gt_layout::Layouts;
use gt_types::Program;
use gt_value::{BlockKind, ValueFail, zero};
use std::alloc::{AllocError, Global};

// Whether one element can be zero.
fn has_zero_element(
    alloc: Global,
    program: &Program,
    layouts: &Layouts,
    types: &ElementTypes,
    kind: BlockKind,
    capacity: u32,
) -> Result<bool, AllocError>
    requires settled { Settled program.now }
    requires laid { IsLaidOut program.now layouts.now }
    requires types { AreElementTypesOf program.now types.now }
    requires kind { MayHold program.now (kind_of kind) }
    ensures zero { IfOk result (λ has. (blocks : Blocks) (statics : Trees) → Decides has (HasZeroElement program.now blocks statics capacity (element_type program.now (kind_of kind)))) }
{
    match zero(alloc, program, layouts, types.get(kind), capacity) {
        Ok(_) => Ok(true),
        Err(ValueFail::Shape) => Ok(false),
        Err(ValueFail::Memory) => Err(AllocError),
    }
}

/// Whether so many elements, with room for so many at the end of each, can all be zero: whether zero has the shape that the
/// expressions of its type ask for. A block of characters ends in a zero, so it has one at least. The time grows with one element. It
/// fails only if memory runs out.
pub fn has_zero(
    alloc: Global,
    program: &Program,
    layouts: &Layouts,
    types: &ElementTypes,
    kind: BlockKind,
    count: u32,
    capacity: u32,
) -> Result<bool, AllocError>
    requires settled { Settled program.now }
    requires laid { IsLaidOut program.now layouts.now }
    requires types { AreElementTypesOf program.now types.now }
    requires kind { MayHold program.now (kind_of kind) }
    ensures zero { IfOk result (λ has. (g : Graph) → Decides has (HasZero program.now g (kind_of kind) count capacity)) }
{
    match kind {
        BlockKind::Nodes(_) if count > 0 => has_zero_element(
            alloc, program, layouts, types, kind, capacity,
        ),
        BlockKind::Nodes(_) => Ok(true),
        BlockKind::Pointers(_) => Ok(true),
        BlockKind::Strings => Ok(true),
        BlockKind::Chars => Ok(count > 0),
        BlockKind::Raw => Ok(true),
    }
}
