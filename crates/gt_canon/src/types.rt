// The words of a type.
ghost use Rattle.std.specs.Prelude.{◌≡◌, ◌∷◌, ◌++◌, OnOk};
ghost use Rattle.gt_canon.specs.Lines.{spaced};
ghost use Rattle.gt_canon.specs.Expressions.{expression_text};
ghost use Rattle.gt_canon.specs.Names.{structure_name};
ghost use Rattle.gt_canon.specs.Types.{desc_word, node_words, pointer_words, scalar_word, target_words, type_words};

use crate::expressions::push_expression;
use crate::lines::{push_number, push_word};
use crate::names::push_structure_name;
use gt_types::{Bytes, Expr, Program, PtrKind, Scalar, Target, Ty, TypeId, Width};
use std::alloc::{AllocError, Global};

/// Adds the words of a type, each after a space.
pub fn push_type(
    alloc: Global,
    text: &mut Bytes,
    program: &Program,
    ty: &Ty,
) -> Result<(), AllocError>
    ensures added { OnOk result (text.new ≡ text.old ++ spaced (type_words program.now ty.now)) }
{
    match ty {
        Ty::Num(scalar) => push_word(text, spelling(*scalar)),
        Ty::Bits { unit, count } => {
            push_word(text, b"bits")?;
            push_word(text, spelling(*unit))?;
            push_number(alloc, text, *count as u64)
        }
        Ty::Opaque { size, align } => {
            push_word(text, b"raw")?;
            push_number(alloc, text, *size as u64)?;
            push_number(alloc, text, *align as u64)
        }
        Ty::Str(None) => push_word(text, b"str"),
        Ty::Str(Some(length)) => {
            push_word(text, b"strlen")?;
            push_operand(alloc, text, program, length)
        }
        Ty::Ptr {
            target,
            kind,
            reorder,
        } => {
            if *reorder {
                push_word(text, b"reorder")?;
            }
            push_pointer(alloc, text, program, target, kind)
        }
        Ty::Node { id, desc } => {
            push_word(text, b"node")?;
            push_structure(text, program, *id)?;
            push_desc(alloc, text, program, desc)
        }
        Ty::Arr { n, elem } => {
            push_word(text, b"arr")?;
            push_number(alloc, text, *n as u64)?;
            push_type(alloc, text, program, elem.get())
        }
        Ty::Tail { len, elem } => {
            push_word(text, b"tail")?;
            push_operand(alloc, text, program, len)?;
            push_type(alloc, text, program, elem.get())
        }
    }
}

// Adds the words of a pointer, but for `reorder`.
fn push_pointer(
    alloc: Global,
    text: &mut Bytes,
    program: &Program,
    target: &Option<Target>,
    kind: &PtrKind,
) -> Result<(), AllocError>
    ensures added { OnOk result (text.new ≡ text.old ++ spaced (pointer_words program.now target.now kind.now)) }
{
    match kind {
        PtrKind::Plain => {
            push_word(text, b"ptr")?;
            match target {
                Some(Target::Node(id)) => push_structure(text, program, *id),
                _ => Ok(()),
            }
        }
        PtrKind::Length(count) => {
            push_word(text, b"len")?;
            push_operand(alloc, text, program, count)?;
            push_target(text, program, target)
        }
        PtrKind::Atomic => push_word(text, b"atomic"),
        PtrKind::Undef => push_word(text, b"undef"),
    }
}

// Adds what a pointer with a length leads to.
fn push_target(
    text: &mut Bytes,
    program: &Program,
    target: &Option<Target>,
) -> Result<(), AllocError>
    ensures added { OnOk result (text.new ≡ text.old ++ spaced (target_words program.now target.now)) }
{
    match target {
        Some(Target::Node(id)) => {
            push_word(text, b"node")?;
            push_structure(text, program, *id)
        }
        Some(Target::Pointers(id)) => {
            push_word(text, b"ptr")?;
            push_structure(text, program, *id)
        }
        Some(Target::Strings) => push_word(text, b"str"),
        None => Ok(()),
    }
}

/// Adds a `desc` after a space: an expression, or `-` where there is none.
pub fn push_desc(
    alloc: Global,
    text: &mut Bytes,
    program: &Program,
    desc: &Option<Expr>,
) -> Result<(), AllocError>
    ensures added { OnOk result (text.new ≡ text.old ++ 32 ∷ desc_word program.now desc.now) }
{
    match desc {
        Some(e) => push_operand(alloc, text, program, e),
        None => push_word(text, b"-"),
    }
}

/// Adds the name of a structure after a space.
pub fn push_structure(text: &mut Bytes, program: &Program, id: TypeId) -> Result<(), AllocError>
    ensures added { OnOk result (text.new ≡ text.old ++ 32 ∷ structure_name program.now id) }
{
    text.push(b' ')?;
    push_structure_name(text, program, id)
}

// Adds an expression after a space.
fn push_operand(
    alloc: Global,
    text: &mut Bytes,
    program: &Program,
    e: &Expr,
) -> Result<(), AllocError>
    ensures added { OnOk result (text.new ≡ text.old ++ 32 ∷ expression_text program.now e.now) }
{
    text.push(b' ')?;
    push_expression(alloc, text, program, e)
}

fn spelling(scalar: Scalar) -> &'static [u8]
    ensures spelling { result.now ≡ scalar_word scalar }
{
    match scalar {
        Scalar::Bool => b"b",
        Scalar::Int { width, signed } => match (width, signed) {
            (Width::W1, true) => b"i1",
            (Width::W1, false) => b"u1",
            (Width::W2, true) => b"i2",
            (Width::W2, false) => b"u2",
            (Width::W4, true) => b"i4",
            (Width::W4, false) => b"u4",
            (Width::W8, true) => b"i8",
            (Width::W8, false) => b"u8",
        },
    }
}
