use crate::Same;
use gt_types::{PtrKind, Ty};

impl Same for PtrKind {
    fn is_same(&self, other: &PtrKind) -> bool {
        match self {
            PtrKind::Plain => matches!(other, PtrKind::Plain),
            PtrKind::Length(count) => match other {
                PtrKind::Length(length) => count.is_same(length),
                _ => false,
            },
            PtrKind::Atomic => matches!(other, PtrKind::Atomic),
            PtrKind::Undef => matches!(other, PtrKind::Undef),
        }
    }
}

impl Same for Ty {
    fn is_same(&self, other: &Ty) -> bool {
        match self {
            Ty::Num(scalar) => match other {
                Ty::Num(number) => scalar == number,
                _ => false,
            },
            Ty::Bits { unit, count } => match other {
                Ty::Bits {
                    unit: of,
                    count: bits,
                } => unit == of && count == bits,
                _ => false,
            },
            Ty::Opaque { size, align } => match other {
                Ty::Opaque {
                    size: bytes,
                    align: to,
                } => size == bytes && align == to,
                _ => false,
            },
            Ty::Str(length) => match other {
                Ty::Str(len) => length.is_same(len),
                _ => false,
            },
            Ty::Ptr {
                target,
                kind,
                reorder,
            } => match other {
                Ty::Ptr {
                    target: to,
                    kind: how,
                    reorder: again,
                } => target == to && kind.is_same(how) && reorder == again,
                _ => false,
            },
            Ty::Node { id, desc } => match other {
                Ty::Node { id: node, desc: by } => id == node && desc.is_same(by),
                _ => false,
            },
            Ty::Arr { n, elem } => match other {
                Ty::Arr { n: count, elem: of } => n == count && elem.get().is_same(of.get()),
                _ => false,
            },
            Ty::Tail { len, elem } => match other {
                Ty::Tail {
                    len: count,
                    elem: of,
                } => { len.is_same(count) && elem.get().is_same(of.get()) }
                _ => false,
            },
        }
    }
}
