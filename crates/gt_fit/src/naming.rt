// What a pointer may name.
ghost use Rattle.std.specs.Prelude.{◌≡◌, ◌↔◌, ℕ, ℤ, IsTrue, Option, Some};
ghost use Rattle.gt_types.specs.declared.expressions.Expr.{Expr};
ghost use Rattle.gt_types.specs.Shapes.{count_of};
ghost use Rattle.gt_tree.specs.Blocks.{Raw, Holds, HoldsAsMany, IsString, MayName};
ghost use Rattle.gt_tree.specs.Scopes.{eval_in, ◌then◌};
ghost use Rattle.gt_value.specs.Names.{kind_of};
ghost use Rattle.gt_fit.specs.Scoping.{scope_of};
ghost use Rattle.gt_fit.specs.Fitting.{HasChars};

use crate::checks::Checking;
use crate::scoping::{Within, eval_in};
use gt_types::{PtrKind, Target, Ty};
use gt_value::{BlockKind, BlockNames};

// Whether a block holds so many elements of a kind.
fn holds<N: BlockNames>(names: &N, addr: u64, kind: BlockKind, count: i64) -> bool
    ensures { IsTrue result ↔ HoldsAsMany (N.blocks names.now) addr (kind_of kind) (Some count) }
{
    let Some(block) = names.block(addr) else {
        return false;
    };
    if block.kind != kind {
        return false;
    }
    i64::from(block.count) == count
}

// Whether a block holds as many elements of a kind as an expression says, which may have no value.
fn holds_as_many<N: BlockNames>(names: &N, addr: u64, kind: BlockKind, value: Option<i64>) -> bool
    ensures { IsTrue result ↔ HoldsAsMany (N.blocks names.now) addr (kind_of kind) value }
{
    match value {
        None => false,
        Some(count) => holds(names, addr, kind, count),
    }
}

// Whether a block holds one element of a kind.
fn holds_one<N: BlockNames>(names: &N, addr: u64, kind: BlockKind) -> bool
    ensures { IsTrue result ↔ Holds (N.blocks names.now) addr (kind_of kind) 1 }
{
    let Some(block) = names.block(addr) else {
        return false;
    };
    if block.kind != kind {
        return false;
    }
    block.count == 1
}

// Whether a block holds bytes that are never scanned.
fn is_raw<N: BlockNames>(names: &N, addr: u64) -> bool
    ensures { IsTrue result ↔ ((n : ℕ) × Holds (N.blocks names.now) addr Raw n) }
{
    let Some(block) = names.block(addr) else {
        return false;
    };
    match block.kind {
        BlockKind::Raw => true,
        _ => false,
    }
}

// Whether the only zero in a block of so many characters is the last.
fn ends_in_its_zero<N: BlockNames>(names: &N, addr: u64, n: u32) -> bool
    requires there { HasChars (N.blocks names.now) addr n }
    ensures { IsTrue result ↔ IsString (N.blocks names.now) addr }
{
    for i in 0..n {
        if names.byte(addr, i) == 0 {
            return i + 1 == n;
        }
    }
    false
}

// Whether a block is a string.
fn is_string<N: BlockNames>(names: &N, addr: u64) -> bool
    ensures { IsTrue result ↔ IsString (N.blocks names.now) addr }
{
    let Some(block) = names.block(addr) else {
        return false;
    };
    match block.kind {
        BlockKind::Chars => ends_in_its_zero(names, addr, block.count),
        _ => false,
    }
}

/// Whether a pointer or string of a type may name the block at an address, where the length in the type has this value.
pub fn may_name<N: BlockNames>(names: &N, ty: &Ty, length: Option<i64>, addr: u64) -> bool
    ensures { (value : Expr → Option ℤ) → length ≡ (count_of ty.now then value) → IsTrue result ↔ MayName (N.blocks names.now) value ty.now addr }
{
    match ty {
        Ty::Str(None) => is_string(names, addr),
        Ty::Str(Some(_)) => holds_as_many(names, addr, BlockKind::Chars, length),
        Ty::Ptr { target, kind, .. } => match (target, kind) {
            (Some(Target::Node(id)), PtrKind::Plain) => holds_one(
                names,
                addr,
                BlockKind::Nodes(*id),
            ),
            (Some(Target::Node(id)), PtrKind::Length(_)) => holds_as_many(
                names,
                addr,
                BlockKind::Nodes(*id),
                length,
            ),
            (Some(Target::Pointers(id)), PtrKind::Length(_)) => holds_as_many(
                names,
                addr,
                BlockKind::Pointers(*id),
                length,
            ),
            (Some(Target::Strings), PtrKind::Length(_)) => holds_as_many(
                names,
                addr,
                BlockKind::Strings,
                length,
            ),
            (None, PtrKind::Atomic) => is_raw(names, addr),
            _ => false,
        },
        _ => false,
    }
}

// The value of the length in a type, where it has one.
fn length_in<N: BlockNames>(on: &Checking<N>, ty: &Ty, within: &Within) -> Option<i64>
    ensures { result ≡ (count_of ty.now then eval_in on.now.program.now (scope_of within.now)) }
{
    match ty {
        Ty::Str(Some(len)) => eval_in(on, len, within),
        Ty::Ptr {
            kind: PtrKind::Length(len),
            ..
        } => eval_in(on, len, within),
        Ty::Tail { len, .. } => eval_in(on, len, within),
        _ => None,
    }
}

/// Whether a pointer or string of a type may name the block at an address, by the values around it.
pub fn may_name_within<N: BlockNames>(on: &Checking<N>, ty: &Ty, addr: u64, within: &Within) -> bool
    ensures { IsTrue result ↔ MayName (N.blocks on.now.names.now) (eval_in on.now.program.now (scope_of within.now)) ty.now addr }
{
    may_name(on.names, ty, length_in(on, ty, within), addr)
}
