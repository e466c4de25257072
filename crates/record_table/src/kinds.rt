// What the blocks of rows hold.
ghost use Rattle.std.specs.Prelude.{◌≡◌, IfOk, IfSome};
ghost use Rattle.gt_tree.specs.Blocks.{element_type};
ghost use Rattle.gt_tree.specs.FixedLaws.{MayHold};
ghost use Rattle.gt_value.specs.Names.{kind_of};
ghost use Rattle.sample_program.specs.Sample.{sample};
ghost use Rattle.value_notation.specs.Trials.{IsReady};

use gt_types::{PtrKind, Scalar, Target, Ty, Width};
use gt_value::BlockKind;
use std::alloc::AllocError;
use value_notation::{Kind, Sample, element};

const BYTE: Scalar = Scalar::Int {
    width: Width::W1,
    signed: false,
};

/// What a block of this name holds: a structure, pointers to items, strings, characters or bytes.
pub fn kind_named(name: &str) -> Option<BlockKind>
    ensures { IfSome result (λ kind. MayHold sample (kind_of kind)) }
{
    match name {
        "pointers" => Some(BlockKind::Pointers(Kind::Item.id())),
        "strings" => Some(BlockKind::Strings),
        "chars" => Some(BlockKind::Chars),
        "raw" => Some(BlockKind::Raw),
        _ => match Kind::named(name) {
            None => None,
            Some(kind) => Some(BlockKind::Nodes(kind.id())),
        },
    }
}

/// The type of the elements of a block.
pub fn type_of(on: &Sample, kind: BlockKind) -> Result<Ty, AllocError>
    requires ready { IsReady on.now.program on.now.layouts }
    requires holds { MayHold on.now.program (kind_of kind) }
    ensures { IfOk result (λ ty. ty ≡ element_type on.now.program (kind_of kind)) }
{
    match kind {
        BlockKind::Nodes(id) => element(on, id),
        BlockKind::Pointers(id) => Ok(Ty::Ptr {
            target: Some(Target::Node(id)),
            kind: PtrKind::Plain,
            reorder: false,
        }),
        BlockKind::Strings => Ok(Ty::Str(None)),
        BlockKind::Chars | BlockKind::Raw => Ok(Ty::Num(BYTE)),
    }
}
