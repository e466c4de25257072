//! Programs of one structure, `struct s { int a[n]; }` with a root that points to it, beside one another.
use crate::Same;
use gt_types::{
    Active, Field, List, Program, PtrKind, Root, Scalar, Structure, Target, Ty, TypeId, Width, Word,
};
use sqlite_items::Boxed;
use std::alloc::{AllocError, Global};
use std::process::Abort;
use std::test::Fail;

// The type `int [n]`.
fn array(alloc: Global, n: u32) -> Result<Ty, AllocError> {
    Ok(Ty::Arr {
        n,
        elem: Boxed::new(
            alloc,
            Ty::Num(Scalar::Int {
                width: Width::W4,
                signed: true,
            }),
        )?,
    })
}

// The program with so many elements in its array, and a root of this name.
fn program(alloc: Global, n: u32, root: &str) -> Result<Program, AllocError> {
    let mut fields = Vec::new(alloc);
    fields.push(Field {
        name: Word::of(alloc, "a")?,
        ty: array(alloc, n)?,
        active: Active::Always,
    })?;
    let mut structures = Vec::new(alloc);
    structures.push(Structure {
        name: Word::of(alloc, "s")?,
        is_union: false,
        desc: None,
        fields: List::of(fields),
        chains: List::new(alloc),
    })?;
    let mut roots = Vec::new(alloc);
    roots.push(Root {
        name: Word::of(alloc, root)?,
        ty: Ty::Ptr {
            target: Some(Target::Node(TypeId(0))),
            kind: PtrKind::Plain,
            reorder: false,
        },
        deletable: false,
    })?;
    Ok(Program {
        structures: List::of(structures),
        roots: List::of(roots),
        caches: List::new(alloc),
        words: List::new(alloc),
    })
}

#[test]
fn programs_are_compared(rt: HostRuntime) -> Result<(), AllocError> {
    let alloc = rt.alloc();
    let one = program(alloc, 3, "r")?;
    assert!(rt; one.is_same(&program(alloc, 3, "r")?));
    assert!(rt; !one.is_same(&program(alloc, 4, "r")?));
    assert!(rt; !one.is_same(&program(alloc, 3, "q")?));
    Ok(())
}
