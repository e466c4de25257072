// The command `new`.
ghost use Rattle.std.specs.Prelude.{◌≡◌, IfOk, OnErr, option_map, pos};
ghost use Rattle.std.specs.Bool.{Decides};
ghost use Rattle.gt_types.specs.Tails.{IsTailType};
ghost use Rattle.gt_tree.specs.Blocks.{Nodes};
ghost use Rattle.gt_tree.specs.FixedLaws.{MayHold};
ghost use Rattle.gt_next.specs.Making.{NextNew};
ghost use Rattle.gt_schema.specs.Schemas.{IsSchema};
ghost use Rattle.gt_session.specs.Sessions.{Goes, IsAsBefore, IsSession, KeepsBytes};
ghost use Rattle.gt_making.specs.Binding.{LeavesBy, MakesSingle, is_shaped, room_of};

use crate::binding::bind_zeros;
use crate::counts::natural;
use gt_held::has_zero;
use gt_next::{Answer, Why};
use gt_objects::{Known, block_size};
use gt_schema::Schema;
use gt_script::{Number, TypeName};
use gt_session::Session;
use gt_types::{TypeId, Word};
use gt_value::BlockKind;
use std::alloc::{AllocError, Global};

// Whether a structure is of a tail type.
fn is_tail(schema: &Schema, node: TypeId) -> bool
    requires schema { IsSchema schema.now }
    requires node { MayHold schema.now.program (Nodes node) }
    ensures tail { Decides result (IsTailType schema.now.program node) }
{
    schema.tails.has(node)
}

// For how many elements there is room at the end of a structure, of a tail type or not.
fn room_of(tail: bool, number: Option<u128>) -> u128
    ensures { result ≡ room_of tail number }
{
    match number {
        Some(number) => { if tail { number } else { 0 } }
        None => 0,
    }
}

// Whether a number is given exactly where there is a tail.
fn is_shaped(tail: bool, number: Option<u128>) -> bool
    ensures { result ≡ is_shaped tail number }
{
    match number {
        Some(_) => tail,
        None => !tail,
    }
}

// Makes a single zero structure, with room for so many elements at its end, and binds a variable to it.
fn bind_single(
    alloc: Global,
    s: &mut Session,
    var: &Word,
    node: TypeId,
    number: Option<u128>,
) -> Result<Answer, AllocError>
    requires session { IsSession s.old }
    requires node { MayHold s.old.schema.program (Nodes node) }
    ensures single { IfOk result (LeavesBy (λ state answer t. MakesSingle s.old.schema.program s.old.schema.layouts state var.now node (option_map pos number) answer t) s.old s.new) }
    ensures refused { IfOk result (λ answer. KeepsBytes answer s.old s.new) }
    ensures unchanged { OnErr result (IsAsBefore s.old s.new) }
    ensures space { OnErr result (s.new.objects.space ≡ s.old.objects.space) }
    ensures schema { s.new.schema ≡ s.old.schema }
{
    let tail = is_tail(&s.schema, node);
    let room = room_of(tail, number);
    if room > u32::MAX as u128 {
        return Ok(Answer::Refused(Why::TooLarge));
    }
    let known = Known {
        kind: BlockKind::Nodes(node),
        count: 1,
        capacity: room as u32,
    };
    let Some(_) = block_size(&s.schema.program, &s.schema.layouts, known) else {
        return Ok(Answer::Refused(Why::TooLarge));
    };
    if !is_shaped(tail, number) {
        return Ok(Answer::Refused(Why::Shape));
    }
    let kind = known.kind;
    if !has_zero(
        alloc,
        &s.schema.program,
        &s.schema.layouts,
        &s.schema.types,
        kind,
        1,
        known.capacity,
    )? {
        return Ok(Answer::Refused(Why::Shape));
    }
    bind_zeros(s, var, known)
}

fn single(
    alloc: Global,
    s: &mut Session,
    var: &Word,
    ty: &TypeName,
    n: Option<Number>,
) -> Result<Answer, AllocError>
    requires session { IsSession s.old }
    ensures next { IfOk result (LeavesBy (λ state answer t. NextNew s.old.schema.program s.old.schema.layouts state var.now ty.now n answer t) s.old s.new) }
    ensures refused { IfOk result (λ answer. KeepsBytes answer s.old s.new) }
    ensures unchanged { OnErr result (IsAsBefore s.old s.new) }
    ensures space { OnErr result (s.new.objects.space ≡ s.old.objects.space) }
    ensures schema { s.new.schema ≡ s.old.schema }
{
    let Some(node) = s.schema.names.node(&s.schema.program, ty) else {
        return Ok(Answer::Refused(Why::NoType));
    };
    let Some(n) = n else {
        return bind_single(alloc, s, var, node, None);
    };
    let Some(count) = natural(n) else {
        return Ok(Answer::Refused(Why::OutOfRange));
    };
    bind_single(alloc, s, var, node, Some(count))
}

/// Makes a single zero structure and binds a variable to it: one of a tail type with room for so many elements at its end, and another
/// without a number. Apart from finding the type, zeroing the block and making one zero value it takes constant time. If memory runs out,
/// nothing changes.
pub fn make_single(
    alloc: Global,
    s: &mut Session,
    var: &Word,
    ty: &TypeName,
    n: Option<Number>,
) -> Result<Answer, AllocError>
    requires session { IsSession s.old }
    ensures next { IfOk result (Goes (λ state answer t. NextNew s.old.schema.program s.old.schema.layouts state var.now ty.now n answer t) s.old s.new) }
    ensures refused { IfOk result (λ answer. KeepsBytes answer s.old s.new) }
    ensures unchanged { OnErr result (IsAsBefore s.old s.new) }
    ensures space { OnErr result (s.new.objects.space ≡ s.old.objects.space) }
    ensures schema { s.new.schema ≡ s.old.schema }
{
    single(alloc, s, var, ty, n)
}
