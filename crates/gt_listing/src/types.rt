// The words of a type.
ghost use Rattle.std.specs.Prelude.{◌≡◌, ◌++◌, OnOk};
ghost use Rattle.gt_canon.specs.Lines.{spaced};
ghost use Rattle.gt_listing.specs.Words.{kind_word, pointer_words, scalar_word, target_words, type_words};

use gt_canon::{push_number, push_structure, push_word};
use gt_types::{Bytes, Program, PtrKind, Scalar, Target, Ty, TypeId, Width};
use std::alloc::{AllocError, Global};

/// Adds the words of a type, each after a space. A bit-field begins at this bit of its unit.
pub fn push_type(
    alloc: Global,
    text: &mut Bytes,
    program: &Program,
    bit: u8,
    ty: &Ty,
) -> Result<(), AllocError>
    ensures added { OnOk result (text.new ≡ text.old ++ spaced (type_words program.now bit ty.now)) }
{
    match ty {
        Ty::Num(scalar) => push_word(text, spelling(*scalar)),
        Ty::Bits { unit, count } => {
            push_word(text, spelling(*unit))?;
            push_word(text, b"bits")?;
            push_number(alloc, text, *count as u64)?;
            push_word(text, b"at")?;
            push_number(alloc, text, bit as u64)
        }
        Ty::Opaque { size, .. } => {
            push_word(text, b"opaque")?;
            push_number(alloc, text, *size as u64)
        }
        Ty::Str(_) => push_word(text, b"string"),
        Ty::Ptr { target, kind, .. } => push_pointer(text, program, target, kind),
        Ty::Node { id, .. } => {
            push_word(text, kind_of(program, *id))?;
            push_structure(text, program, *id)
        }
        Ty::Arr { n, elem } => {
            push_word(text, b"array")?;
            push_number(alloc, text, *n as u64)?;
            push_type(alloc, text, program, bit, elem.get())
        }
        Ty::Tail { elem, .. } => {
            push_word(text, b"tail")?;
            push_type(alloc, text, program, bit, elem.get())
        }
    }
}

// Adds the words of a pointer.
fn push_pointer(
    text: &mut Bytes,
    program: &Program,
    target: &Option<Target>,
    kind: &PtrKind,
) -> Result<(), AllocError>
    ensures added { OnOk result (text.new ≡ text.old ++ spaced (pointer_words program.now target.now kind.now)) }
{
    match kind {
        PtrKind::Plain => push_target(text, program, target),
        PtrKind::Length(_) => {
            push_word(text, b"length")?;
            push_target(text, program, target)
        }
        PtrKind::Atomic => push_word(text, b"atomic"),
        PtrKind::Undef => push_word(text, b"undef"),
    }
}

// Adds what a pointer names.
fn push_target(
    text: &mut Bytes,
    program: &Program,
    target: &Option<Target>,
) -> Result<(), AllocError>
    ensures added { OnOk result (text.new ≡ text.old ++ spaced (target_words program.now target.now)) }
{
    match target {
        Some(Target::Node(id)) => {
            push_word(text, b"ptr")?;
            push_structure(text, program, *id)
        }
        Some(Target::Pointers(id)) => {
            push_word(text, b"ptrs")?;
            push_structure(text, program, *id)
        }
        Some(Target::Strings) => push_word(text, b"strings"),
        None => Ok(()),
    }
}

// The word for a structure of this number; empty where there is none.
fn kind_of(program: &Program, id: TypeId) -> &'static [u8]
    ensures kind { result.now ≡ kind_word program.now id }
{
    match program.structures.get(id.0 as usize) {
        Some(s) => if s.is_union { b"union" } else { b"struct" },
        None => b"",
    }
}

fn spelling(scalar: Scalar) -> &'static [u8]
    ensures spelling { result.now ≡ scalar_word scalar }
{
    match scalar {
        Scalar::Bool => b"bool",
        Scalar::Int { width, signed } => match (width, signed) {
            (Width::W1, true) => b"i8",
            (Width::W1, false) => b"u8",
            (Width::W2, true) => b"i16",
            (Width::W2, false) => b"u16",
            (Width::W4, true) => b"i32",
            (Width::W4, false) => b"u32",
            (Width::W8, true) => b"i64",
            (Width::W8, false) => b"u64",
        },
    }
}
