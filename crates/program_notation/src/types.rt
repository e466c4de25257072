// The type of a field or a root, as it is written.
use crate::expressions::{MAX_NESTING, Names, expression};
use crate::line::Line;
use crate::refusal::Refusal;
use gt_types::{Boxed, Expr, PtrKind, Scalar, Target, Ty, Width};
use std::alloc::Global;

/// The type that stands next.
pub fn ty(alloc: Global, known: &Names, line: &mut Line) -> Result<Ty, Refusal> {
    part(alloc, known, line, MAX_NESTING)
}

#[cycle(reading)]
fn part(alloc: Global, known: &Names, line: &mut Line, nesting: usize) -> Result<Ty, Refusal> {
    if nesting == 0 {
        return Err(Refusal::TooDeep);
    }
    if line.takes("arr") {
        let n = size(line)?;
        let elem = element(alloc, known, line, nesting - 1)?;
        return Ok(Ty::Arr { n, elem });
    }
    if line.takes("tail") {
        let len = expression(alloc, known, line)?;
        let elem = element(alloc, known, line, nesting - 1)?;
        return Ok(Ty::Tail { len, elem });
    }
    if line.takes("node") {
        let id = known.structure(line)?;
        let desc = desc(alloc, known, line)?;
        return Ok(Ty::Node { id, desc });
    }
    if line.takes("str") {
        return Ok(Ty::Str(None));
    }
    if line.takes("strlen") {
        return Ok(Ty::Str(Some(expression(alloc, known, line)?)));
    }
    unscanned_or_pointer(alloc, known, line)
}

#[cycle(reading)]
fn element(
    alloc: Global,
    known: &Names,
    line: &mut Line,
    nesting: usize,
) -> Result<Boxed<Ty>, Refusal> {
    Ok(Boxed::new(alloc, part(alloc, known, line, nesting)?)?)
}

/// The `desc` that stands next, or `-` where there is none.
pub fn desc(alloc: Global, known: &Names, line: &mut Line) -> Result<Option<Expr>, Refusal> {
    if line.takes("-") {
        return Ok(None);
    }
    Ok(Some(expression(alloc, known, line)?))
}

fn unscanned_or_pointer(alloc: Global, known: &Names, line: &mut Line) -> Result<Ty, Refusal> {
    if line.takes("bits") {
        let unit = scalar(line)?;
        let count = match u8::try_from(line.number()?) {
            Ok(count) => count,
            Err(_) => return Err(Refusal::BadNumber),
        };
        return Ok(Ty::Bits { unit, count });
    }
    if line.takes("raw") {
        let size = size(line)?;
        let align = self::size(line)?;
        return Ok(Ty::Opaque { size, align });
    }
    if line.takes("reorder") {
        return pointer(alloc, known, line, true);
    }
    match pointer(alloc, known, line, false) {
        Err(Refusal::UnknownWord) => Ok(Ty::Num(scalar(line)?)),
        other => other,
    }
}

// A pointer, whose block may be sorted or not. A word that begins none stays unread.
fn pointer(alloc: Global, known: &Names, line: &mut Line, reorder: bool) -> Result<Ty, Refusal> {
    let (target, kind) = if line.takes("ptr") {
        (Some(Target::Node(known.structure(line)?)), PtrKind::Plain)
    } else if line.takes("len") {
        return counted_pointer(alloc, known, line, reorder);
    } else if line.takes("atomic") {
        (None, PtrKind::Atomic)
    } else if line.takes("undef") {
        (None, PtrKind::Undef)
    } else {
        return Err(Refusal::UnknownWord);
    };
    Ok(Ty::Ptr {
        target,
        kind,
        reorder,
    })
}

// A pointer with a length.
fn counted_pointer(
    alloc: Global,
    known: &Names,
    line: &mut Line,
    reorder: bool,
) -> Result<Ty, Refusal> {
    let count = expression(alloc, known, line)?;
    let target = target(known, line)?;
    Ok(Ty::Ptr {
        target: Some(target),
        kind: PtrKind::Length(count),
        reorder,
    })
}

// What a pointer with a length points to.
fn target(known: &Names, line: &mut Line) -> Result<Target, Refusal> {
    match line.next()?.as_str() {
        "node" => Ok(Target::Node(known.structure(line)?)),
        "ptr" => Ok(Target::Pointers(known.structure(line)?)),
        "str" => Ok(Target::Strings),
        _ => Err(Refusal::UnknownWord),
    }
}

fn size(line: &mut Line) -> Result<u32, Refusal> {
    match u32::try_from(line.number()?) {
        Ok(size) => Ok(size),
        Err(_) => Err(Refusal::BadNumber),
    }
}

fn scalar(line: &mut Line) -> Result<Scalar, Refusal> {
    let (width, signed) = match line.next()?.as_str() {
        "b" => return Ok(Scalar::Bool),
        "i1" => (Width::W1, true),
        "u1" => (Width::W1, false),
        "i2" => (Width::W2, true),
        "u2" => (Width::W2, false),
        "i4" => (Width::W4, true),
        "u4" => (Width::W4, false),
        "i8" => (Width::W8, true),
        "u8" => (Width::W8, false),
        _ => return Err(Refusal::UnknownWord),
    };
    Ok(Scalar::Int { width, signed })
}
