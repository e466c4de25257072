// The commands `array` and `block`.
ghost use Rattle.std.specs.Prelude.{◌≡◌, IfOk, OnErr};
ghost use Rattle.std.specs.Bool.{Decides};
ghost use Rattle.gt_tree.specs.FixedLaws.{MayHold};
ghost use Rattle.gt_value.specs.Names.{kind_of};
ghost use Rattle.gt_graph.specs.Good.{IsOfTails};
ghost use Rattle.gt_next.specs.Making.{NextArray, NextBlock};
ghost use Rattle.gt_schema.specs.Schemas.{IsSchema};
ghost use Rattle.gt_session.specs.Sessions.{Goes, IsAsBefore, IsSession, KeepsBytes};
ghost use Rattle.gt_making.specs.Binding.{LeavesBy};

use crate::binding::bind_many;
use crate::counts::natural;
use gt_next::{Answer, Why};
use gt_schema::Schema;
use gt_script::{Number, TypeName};
use gt_session::Session;
use gt_types::Word;
use gt_value::BlockKind;
use std::alloc::AllocError;

// Whether elements are structures of a tail type.
fn are_tails(schema: &Schema, kind: BlockKind) -> bool
    requires schema { IsSchema schema.now }
    requires kind { MayHold schema.now.program (kind_of kind) }
    ensures tails { Decides result (IsOfTails schema.now.program (kind_of kind)) }
{
    match kind {
        BlockKind::Nodes(node) => schema.tails.has(node),
        BlockKind::Pointers(_) | BlockKind::Strings => false,
        BlockKind::Chars | BlockKind::Raw => false,
    }
}

fn array(s: &mut Session, var: &Word, ty: &TypeName, n: Number) -> Result<Answer, AllocError>
    requires session { IsSession s.old }
    ensures next { IfOk result (LeavesBy (λ state answer t. NextArray s.old.schema.program s.old.schema.layouts state var.now ty.now n answer t) s.old s.new) }
    ensures refused { IfOk result (λ answer. KeepsBytes answer s.old s.new) }
    ensures unchanged { OnErr result (IsAsBefore s.old s.new) }
    ensures space { OnErr result (s.new.objects.space ≡ s.old.objects.space) }
    ensures schema { s.new.schema ≡ s.old.schema }
{
    let Some(kind) = s.schema.names.kind(&s.schema.program, ty) else {
        return Ok(Answer::Refused(Why::NoType));
    };
    let Some(count) = natural(n) else {
        return Ok(Answer::Refused(Why::OutOfRange));
    };
    if are_tails(&s.schema, kind) {
        return Ok(Answer::Refused(Why::Shape));
    }
    bind_many(s, var, kind, count)
}

fn block(s: &mut Session, var: &Word, n: Number) -> Result<Answer, AllocError>
    requires session { IsSession s.old }
    ensures next { IfOk result (LeavesBy (λ state answer t. NextBlock s.old.schema.program s.old.schema.layouts state var.now n answer t) s.old s.new) }
    ensures refused { IfOk result (λ answer. KeepsBytes answer s.old s.new) }
    ensures unchanged { OnErr result (IsAsBefore s.old s.new) }
    ensures space { OnErr result (s.new.objects.space ≡ s.old.objects.space) }
    ensures schema { s.new.schema ≡ s.old.schema }
{
    let Some(count) = natural(n) else {
        return Ok(Answer::Refused(Why::OutOfRange));
    };
    bind_many(s, var, BlockKind::Raw, count)
}

/// Makes a block of so many zero elements, structures of no tail type, pointers or strings, and binds a variable to it. Apart from
/// finding the type and zeroing the block it takes constant time. If memory runs out, nothing changes.
pub fn make_array(
    s: &mut Session,
    var: &Word,
    ty: &TypeName,
    n: Number,
) -> Result<Answer, AllocError>
    requires session { IsSession s.old }
    ensures next { IfOk result (Goes (λ state answer t. NextArray s.old.schema.program s.old.schema.layouts state var.now ty.now n answer t) s.old s.new) }
    ensures refused { IfOk result (λ answer. KeepsBytes answer s.old s.new) }
    ensures unchanged { OnErr result (IsAsBefore s.old s.new) }
    ensures space { OnErr result (s.new.objects.space ≡ s.old.objects.space) }
    ensures schema { s.new.schema ≡ s.old.schema }
{
    array(s, var, ty, n)
}

/// Makes a block of so many zero bytes that are never scanned, and binds a variable to it. If memory runs out, nothing changes.
pub fn make_block(s: &mut Session, var: &Word, n: Number) -> Result<Answer, AllocError>
    requires session { IsSession s.old }
    ensures next { IfOk result (Goes (λ state answer t. NextBlock s.old.schema.program s.old.schema.layouts state var.now n answer t) s.old s.new) }
    ensures refused { IfOk result (λ answer. KeepsBytes answer s.old s.new) }
    ensures unchanged { OnErr result (IsAsBefore s.old s.new) }
    ensures space { OnErr result (s.new.objects.space ≡ s.old.objects.space) }
    ensures schema { s.new.schema ≡ s.old.schema }
{
    block(s, var, n)
}
