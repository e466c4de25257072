// The sample, made part by part.
ghost use Rattle.std.specs.Prelude.{◌≡◌, ◌++◌, [], ◌∷◌, Option, Some, None, IfOk, IsTrue, OnOk, codes, take, drop, nat_lt};
ghost use Rattle.std.specs.List.{list_all};
ghost use Rattle.gt_types.specs.declared.expressions.Expr.TheVariants as expr;
ghost use Rattle.gt_types.specs.declared.types.Ty.TheVariants as ty;
ghost use Rattle.gt_types.specs.declared.types.Target.TheVariants as target;
ghost use Rattle.gt_types.specs.declared.types.PtrKind.TheVariants as kind;
ghost use Rattle.sample_program.specs.Sample as sample;

use gt_types::{
    Active, Base, Expr, Field, List, Program, PtrKind, Root, Scalar, Structure, Target, Ty, TypeId,
    Width, Word,
};
use sqlite_items::Boxed;
use std::alloc::{AllocError, Global};

const BYTE: Scalar = Scalar::Int {
    width: Width::W1,
    signed: false,
};

const SHORT: Scalar = Scalar::Int {
    width: Width::W2,
    signed: true,
};

const INT: Scalar = Scalar::Int {
    width: Width::W4,
    signed: true,
};

const UNSIGNED: Scalar = Scalar::Int {
    width: Width::W4,
    signed: false,
};

const CHAR: Scalar = Scalar::Int {
    width: Width::W1,
    signed: true,
};

const UNSIGNED_SHORT: Scalar = Scalar::Int {
    width: Width::W2,
    signed: false,
};

const UNSIGNED_LONG: Scalar = Scalar::Int {
    width: Width::W8,
    signed: false,
};

const LONG: Scalar = Scalar::Int {
    width: Width::W8,
    signed: true,
};

// The word of a text of ASCII characters.
#[tactic(auto, using(crate::proofs::Texts::ascii))]
fn word(alloc: Global, text: &str) -> Result<Word, AllocError>
    requires ascii { IsTrue (list_all (λ b. nat_lt b 128) text.now) }
    ensures { IfOk result (λ w. w ≡ text.now) }
{
    Word::of(alloc, text)
}

// The word of such a text, and what it is to name.
fn named<T: Drop>(alloc: Global, text: &str, part: T) -> Result<(Word, T), AllocError>
    requires ascii { IsTrue (list_all (λ b. nat_lt b 128) text.now) }
    ensures name { IfOk result (λ made. made.0 ≡ text.now) }
    ensures same { IfOk result (λ made. made.1 ≡ part) }
{
    let name = word(alloc, text)?;
    Ok((name, part))
}

// A field or a member of this name.
fn field(alloc: Global, name: &str, ty: Ty, active: Active) -> Result<Field, AllocError>
    requires ascii { IsTrue (list_all (λ b. nat_lt b 128) name.now) }
    ensures { IfOk result (λ f. f ≡ record { name = name.now; ty = ty; active = active }) }
{
    let (name, ty) = named(alloc, name, ty)?;
    Ok(Field { name, ty, active })
}

// Adds a field or a member of this name.
fn add(
    alloc: Global,
    fields: &mut Vec<Field>,
    name: &str,
    ty: Ty,
    active: Active,
) -> Result<(), AllocError>
    requires ascii { IsTrue (list_all (λ b. nat_lt b 128) name.now) }
    ensures { OnOk result (fields.new.items ≡ fields.old.items ++ record { name = name.now; ty = ty; active = active } ∷ []) }
{
    fields.push(field(alloc, name, ty, active)?)?;
    Ok(())
}

// A path of one name.
fn path(alloc: Global, base: Base, name: &str) -> Result<Expr, AllocError>
    requires ascii { IsTrue (list_all (λ b. nat_lt b 128) name.now) }
    ensures { IfOk result (λ e. e ≡ expr.Path base (name.now ∷ [])) }
{
    let steps = vec![in alloc; word(alloc, name)?]?;
    Ok(Expr::Path {
        base,
        steps: List::of(steps),
    })
}

// The kind in the structure with which a union begins.
fn own_kind(alloc: Global) -> Result<Expr, AllocError>
    ensures { IfOk result (λ e. e ≡ sample.own_kind) }
{
    let b = word(alloc, "b")?;
    let kind = word(alloc, "kind")?;
    let steps = vec![in alloc; b, kind]?;
    Ok(Expr::Path {
        base: Base::Here,
        steps: List::of(steps),
    })
}

// The kind in a `wide` with which a union begins.
fn wide_kind(alloc: Global) -> Result<Expr, AllocError>
    ensures { IfOk result (λ e. e ≡ sample.wide_kind) }
{
    let w = word(alloc, "w")?;
    let b = word(alloc, "b")?;
    let kind = word(alloc, "kind")?;
    let steps = vec![in alloc; w, b, kind]?;
    Ok(Expr::Path {
        base: Base::Here,
        steps: List::of(steps),
    })
}

// A plain pointer to an item.
fn pointer() -> Ty
    ensures { result ≡ sample.pointer_to 0 }
{
    Ty::Ptr {
        target: Some(Target::Node(TypeId(0))),
        kind: PtrKind::Plain,
        reorder: false,
    }
}

// A structure by value.
fn held(id: u32, desc: Option<Expr>) -> Ty
    ensures { result ≡ ty.Node (sample.node id) desc }
{
    Ty::Node {
        id: TypeId(id),
        desc,
    }
}

// A structure without chains.
fn structure(
    alloc: Global,
    name: &str,
    is_union: bool,
    desc: Option<Expr>,
    fields: Vec<Field>,
) -> Result<Structure, AllocError>
    requires ascii { IsTrue (list_all (λ b. nat_lt b 128) name.now) }
    ensures { IfOk result (λ s. s ≡ record { name = name.now; is_union = is_union; desc = desc; fields = fields.items; chains = [] }) }
{
    Ok(Structure {
        name: word(alloc, name)?,
        is_union,
        desc,
        fields: List::of(fields),
        chains: List::new(alloc),
    })
}

// An array with a length.
fn tail(alloc: Global, len: Expr, elem: Ty) -> Result<Ty, AllocError>
    ensures { IfOk result (λ made. made ≡ ty.Tail len elem) }
{
    Ok(Ty::Tail {
        len,
        elem: Boxed::new(alloc, elem)?,
    })
}

// Two rows of three numbers.
fn grid(alloc: Global) -> Result<Ty, AllocError>
    ensures { IfOk result (λ made. made ≡ ty.Arr 2 (ty.Arr 3 (ty.Num (sample.short)))) }
{
    let row = Ty::Arr {
        n: 3,
        elem: Boxed::new(alloc, Ty::Num(SHORT))?,
    };
    Ok(Ty::Arr {
        n: 2,
        elem: Boxed::new(alloc, row)?,
    })
}

fn item(alloc: Global) -> Result<Structure, AllocError>
    ensures { IfOk result (λ s. s ≡ sample.item) }
{
    let mut fields = Vec::new(alloc);
    add(alloc, &mut fields, "n", Ty::Num(INT), Active::Always)?;
    structure(alloc, "item", false, None, fields)
}

fn base(alloc: Global) -> Result<Structure, AllocError>
    ensures { IfOk result (λ s. s ≡ sample.base) }
{
    let mut fields = Vec::new(alloc);
    add(alloc, &mut fields, "kind", Ty::Num(SHORT), Active::Always)?;
    add(alloc, &mut fields, "p", pointer(), Active::Always)?;
    structure(alloc, "base", false, None, fields)
}

fn wide(alloc: Global) -> Result<Structure, AllocError>
    ensures { IfOk result (λ s. s ≡ sample.wide) }
{
    let mut fields = Vec::new(alloc);
    add(alloc, &mut fields, "b", held(1, None), Active::Always)?;
    add(alloc, &mut fields, "x", Ty::Num(LONG), Active::Always)?;
    add(alloc, &mut fields, "q", pointer(), Active::Always)?;
    structure(alloc, "wide", false, None, fields)
}

fn form(alloc: Global) -> Result<Structure, AllocError>
    ensures { IfOk result (λ s. s ≡ sample.form) }
{
    let mut fields = Vec::new(alloc);
    add(alloc, &mut fields, "b", held(1, None), Active::Tag(1))?;
    add(alloc, &mut fields, "w", held(2, None), Active::Tag(2))?;
    structure(alloc, "form", true, Some(own_kind(alloc)?), fields)
}

fn pay(alloc: Global) -> Result<Structure, AllocError>
    ensures { IfOk result (λ s. s ≡ sample.pay) }
{
    let mut fields = Vec::new(alloc);
    add(alloc, &mut fields, "num", Ty::Num(LONG), Active::Tag(0))?;
    add(alloc, &mut fields, "ref", pointer(), Active::Tag(1))?;
    structure(alloc, "pay", true, None, fields)
}

// The first fields of `cell`.
fn first_of_cell(alloc: Global, fields: &mut Vec<Field>) -> Result<(), AllocError>
    ensures { OnOk result (fields.new.items ≡ fields.old.items ++ take 3 (drop 0 sample.cell.fields)) }
{
    add(alloc, fields, "sel", Ty::Num(BYTE), Active::Always)?;
    add(
        alloc,
        fields,
        "u",
        held(4, Some(path(alloc, Base::Outer, "sel")?)),
        Active::Always,
    )?;
    add(
        alloc,
        fields,
        "f",
        held(3, Some(own_kind(alloc)?)),
        Active::Always,
    )?;
    Ok(())
}

// The middle fields of `cell`.
fn middle_of_cell(alloc: Global, fields: &mut Vec<Field>) -> Result<(), AllocError>
    ensures { OnOk result (fields.new.items ≡ fields.old.items ++ take 2 (drop 3 sample.cell.fields)) }
{
    add(
        alloc,
        fields,
        "lo",
        Ty::Bits {
            unit: UNSIGNED,
            count: 3,
        },
        Active::Always,
    )?;
    add(
        alloc,
        fields,
        "hi",
        Ty::Bits {
            unit: INT,
            count: 5,
        },
        Active::Always,
    )?;
    Ok(())
}

// The last fields of `cell`.
fn last_of_cell(alloc: Global, fields: &mut Vec<Field>) -> Result<(), AllocError>
    ensures { OnOk result (fields.new.items ≡ fields.old.items ++ take 2 (drop 5 sample.cell.fields)) }
{
    add(alloc, fields, "flag", Ty::Num(Scalar::Bool), Active::Always)?;
    add(
        alloc,
        fields,
        "raw",
        Ty::Opaque { size: 8, align: 8 },
        Active::Always,
    )?;
    Ok(())
}

fn cell(alloc: Global) -> Result<Structure, AllocError>
    ensures { IfOk result (λ s. s ≡ sample.cell) }
{
    let mut fields = Vec::new(alloc);
    first_of_cell(alloc, &mut fields)?;
    middle_of_cell(alloc, &mut fields)?;
    last_of_cell(alloc, &mut fields)?;
    structure(alloc, "cell", false, None, fields)
}

fn vec(alloc: Global) -> Result<Structure, AllocError>
    ensures { IfOk result (λ s. s ≡ sample.vec) }
{
    let mut fields = Vec::new(alloc);
    add(alloc, &mut fields, "num", Ty::Num(INT), Active::Always)?;
    add(
        alloc,
        &mut fields,
        "elem",
        tail(alloc, path(alloc, Base::Here, "num")?, pointer())?,
        Active::Always,
    )?;
    structure(alloc, "vec", false, None, fields)
}

// The first fields of `hold`.
fn first_of_hold(alloc: Global, fields: &mut Vec<Field>) -> Result<(), AllocError>
    ensures { OnOk result (fields.new.items ≡ fields.old.items ++ take 3 (drop 0 sample.hold.fields)) }
{
    add(alloc, fields, "len", Ty::Num(INT), Active::Always)?;
    add(
        alloc,
        fields,
        "list",
        Ty::Ptr {
            target: Some(Target::Node(TypeId(0))),
            kind: PtrKind::Length(path(alloc, Base::Here, "len")?),
            reorder: false,
        },
        Active::Always,
    )?;
    add(alloc, fields, "s", Ty::Str(None), Active::Always)?;
    Ok(())
}

// The last fields of `hold`.
fn last_of_hold(alloc: Global, fields: &mut Vec<Field>) -> Result<(), AllocError>
    ensures { OnOk result (fields.new.items ≡ fields.old.items ++ take 3 (drop 3 sample.hold.fields)) }
{
    add(
        alloc,
        fields,
        "t",
        Ty::Str(Some(path(alloc, Base::Here, "len")?)),
        Active::Always,
    )?;
    add(
        alloc,
        fields,
        "raw",
        Ty::Ptr {
            target: None,
            kind: PtrKind::Atomic,
            reorder: false,
        },
        Active::Always,
    )?;
    add(alloc, fields, "grid", grid(alloc)?, Active::Always)?;
    Ok(())
}

fn hold(alloc: Global) -> Result<Structure, AllocError>
    ensures { IfOk result (λ s. s ≡ sample.hold) }
{
    let mut fields = Vec::new(alloc);
    first_of_hold(alloc, &mut fields)?;
    last_of_hold(alloc, &mut fields)?;
    add(
        alloc,
        &mut fields,
        "few",
        Ty::Opaque { size: 4, align: 4 },
        Active::Always,
    )?;
    structure(alloc, "hold", false, None, fields)
}

fn duo(alloc: Global) -> Result<Structure, AllocError>
    ensures { IfOk result (λ s. s ≡ sample.duo) }
{
    let mut fields = Vec::new(alloc);
    add(alloc, &mut fields, "c", held(5, None), Active::Tag(0))?;
    add(alloc, &mut fields, "k", Ty::Num(LONG), Active::Tag(1))?;
    structure(alloc, "duo", true, None, fields)
}

fn two(alloc: Global) -> Result<Structure, AllocError>
    ensures { IfOk result (λ s. s ≡ sample.two) }
{
    let mut fields = Vec::new(alloc);
    add(alloc, &mut fields, "tag", Ty::Num(INT), Active::Always)?;
    add(
        alloc,
        &mut fields,
        "d",
        held(8, Some(path(alloc, Base::Outer, "tag")?)),
        Active::Always,
    )?;
    structure(alloc, "two", false, None, fields)
}

fn vecb(alloc: Global) -> Result<Structure, AllocError>
    ensures { IfOk result (λ s. s ≡ sample.vecb) }
{
    let mut fields = Vec::new(alloc);
    add(alloc, &mut fields, "b", held(1, None), Active::Always)?;
    add(alloc, &mut fields, "num", Ty::Num(INT), Active::Always)?;
    add(
        alloc,
        &mut fields,
        "elem",
        tail(alloc, path(alloc, Base::Here, "num")?, Ty::Num(SHORT))?,
        Active::Always,
    )?;
    structure(alloc, "vecb", false, None, fields)
}

fn any(alloc: Global) -> Result<Structure, AllocError>
    ensures { IfOk result (λ s. s ≡ sample.any) }
{
    let mut fields = Vec::new(alloc);
    add(alloc, &mut fields, "b", held(1, None), Active::Tag(1))?;
    add(alloc, &mut fields, "v", held(10, None), Active::Tag(2))?;
    structure(alloc, "any", true, Some(own_kind(alloc)?), fields)
}

fn rest(alloc: Global) -> Result<Structure, AllocError>
    ensures { IfOk result (λ s. s ≡ sample.rest) }
{
    let mut fields = Vec::new(alloc);
    add(alloc, &mut fields, "num", Ty::Num(LONG), Active::Tag(0))?;
    add(alloc, &mut fields, "old", Ty::Num(INT), Active::Never)?;
    add(alloc, &mut fields, "ref", pointer(), Active::Other)?;
    structure(alloc, "rest", true, None, fields)
}

// The first fields of `big`.
fn first_of_big(alloc: Global, fields: &mut Vec<Field>) -> Result<(), AllocError>
    ensures { OnOk result (fields.new.items ≡ fields.old.items ++ take 4 (drop 0 sample.big.fields)) }
{
    add(alloc, fields, "num", Ty::Num(UNSIGNED_LONG), Active::Always)?;
    add(
        alloc,
        fields,
        "u",
        held(4, Some(path(alloc, Base::Outer, "num")?)),
        Active::Always,
    )?;
    add(
        alloc,
        fields,
        "v",
        held(12, Some(path(alloc, Base::Outer, "num")?)),
        Active::Always,
    )?;
    add(
        alloc,
        fields,
        "list",
        Ty::Ptr {
            target: Some(Target::Node(TypeId(0))),
            kind: PtrKind::Length(path(alloc, Base::Here, "num")?),
            reorder: false,
        },
        Active::Always,
    )?;
    Ok(())
}

// The middle fields of `big`.
fn middle_of_big(alloc: Global, fields: &mut Vec<Field>) -> Result<(), AllocError>
    ensures { OnOk result (fields.new.items ≡ fields.old.items ++ take 3 (drop 4 sample.big.fields)) }
{
    add(alloc, fields, "a", Ty::Num(CHAR), Active::Always)?;
    add(alloc, fields, "c", Ty::Num(UNSIGNED_SHORT), Active::Always)?;
    add(alloc, fields, "e", Ty::Num(UNSIGNED), Active::Always)?;
    Ok(())
}

// The last fields of `big`.
fn last_of_big(alloc: Global, fields: &mut Vec<Field>) -> Result<(), AllocError>
    ensures { OnOk result (fields.new.items ≡ fields.old.items ++ take 3 (drop 7 sample.big.fields)) }
{
    add(
        alloc,
        fields,
        "x",
        Ty::Bits {
            unit: UNSIGNED,
            count: 12,
        },
        Active::Always,
    )?;
    add(
        alloc,
        fields,
        "y",
        Ty::Bits {
            unit: INT,
            count: 15,
        },
        Active::Always,
    )?;
    add(
        alloc,
        fields,
        "und",
        Ty::Ptr {
            target: None,
            kind: PtrKind::Undef,
            reorder: false,
        },
        Active::Always,
    )?;
    Ok(())
}

fn big(alloc: Global) -> Result<Structure, AllocError>
    ensures { IfOk result (λ s. s ≡ sample.big) }
{
    let mut fields = Vec::new(alloc);
    first_of_big(alloc, &mut fields)?;
    middle_of_big(alloc, &mut fields)?;
    last_of_big(alloc, &mut fields)?;
    structure(alloc, "big", false, None, fields)
}

fn bigv(alloc: Global) -> Result<Structure, AllocError>
    ensures { IfOk result (λ s. s ≡ sample.bigv) }
{
    let mut fields = Vec::new(alloc);
    add(
        alloc,
        &mut fields,
        "n",
        Ty::Num(UNSIGNED_LONG),
        Active::Always,
    )?;
    add(
        alloc,
        &mut fields,
        "elem",
        tail(alloc, path(alloc, Base::Here, "n")?, Ty::Num(SHORT))?,
        Active::Always,
    )?;
    structure(alloc, "bigv", false, None, fields)
}

fn kindv(alloc: Global) -> Result<Structure, AllocError>
    ensures { IfOk result (λ s. s ≡ sample.kindv) }
{
    let mut fields = Vec::new(alloc);
    add(alloc, &mut fields, "b", held(1, None), Active::Always)?;
    add(
        alloc,
        &mut fields,
        "elem",
        tail(alloc, own_kind(alloc)?, Ty::Num(SHORT))?,
        Active::Always,
    )?;
    structure(alloc, "kindv", false, None, fields)
}

fn ever(alloc: Global) -> Result<Structure, AllocError>
    ensures { IfOk result (λ s. s ≡ sample.ever) }
{
    let mut fields = Vec::new(alloc);
    add(alloc, &mut fields, "b", held(1, None), Active::Tag(1))?;
    add(alloc, &mut fields, "v", held(15, None), Active::Tag(2))?;
    structure(alloc, "ever", true, Some(own_kind(alloc)?), fields)
}

fn label(alloc: Global) -> Result<Structure, AllocError>
    ensures { IfOk result (λ s. s ≡ sample.label) }
{
    let mut fields = Vec::new(alloc);
    add(
        alloc,
        &mut fields,
        "n",
        Ty::Num(UNSIGNED_LONG),
        Active::Always,
    )?;
    add(
        alloc,
        &mut fields,
        "t",
        Ty::Str(Some(path(alloc, Base::Here, "n")?)),
        Active::Always,
    )?;
    add(alloc, &mut fields, "a", Ty::Num(SHORT), Active::Always)?;
    add(
        alloc,
        &mut fields,
        "z",
        Ty::Str(Some(path(alloc, Base::Outermost, "a")?)),
        Active::Always,
    )?;
    structure(alloc, "label", false, None, fields)
}

// Two labels.
fn labels(alloc: Global) -> Result<Ty, AllocError>
    ensures { IfOk result (λ made. made ≡ ty.Arr 2 (ty.Node (sample.node 17) None)) }
{
    Ok(Ty::Arr {
        n: 2,
        elem: Boxed::new(alloc, held(17, None))?,
    })
}

// The first fields of `twin`.
fn first_of_twin(alloc: Global, fields: &mut Vec<Field>) -> Result<(), AllocError>
    ensures { OnOk result (fields.new.items ≡ fields.old.items ++ take 3 (drop 0 sample.twin.fields)) }
{
    add(alloc, fields, "b", held(1, None), Active::Always)?;
    add(alloc, fields, "c", held(1, None), Active::Always)?;
    add(
        alloc,
        fields,
        "t",
        Ty::Str(Some(own_kind(alloc)?)),
        Active::Always,
    )?;
    Ok(())
}

fn twin(alloc: Global) -> Result<Structure, AllocError>
    ensures { IfOk result (λ s. s ≡ sample.twin) }
{
    let mut fields = Vec::new(alloc);
    first_of_twin(alloc, &mut fields)?;
    add(alloc, &mut fields, "a", Ty::Num(SHORT), Active::Always)?;
    add(alloc, &mut fields, "each", labels(alloc)?, Active::Always)?;
    structure(alloc, "twin", false, None, fields)
}

fn lone(alloc: Global) -> Result<Structure, AllocError>
    ensures { IfOk result (λ s. s ≡ sample.lone) }
{
    let mut fields = Vec::new(alloc);
    add(alloc, &mut fields, "w", held(2, None), Active::Tag(1))?;
    structure(alloc, "lone", true, Some(wide_kind(alloc)?), fields)
}

fn root(alloc: Global, name: &str, ty: Ty) -> Result<Root, AllocError>
    requires ascii { IsTrue (list_all (λ b. nat_lt b 128) name.now) }
    ensures { IfOk result (λ r. r ≡ sample.root name.now ty) }
{
    let (name, ty) = named(alloc, name, ty)?;
    Ok(Root {
        name,
        ty,
        deletable: false,
    })
}

fn roots(alloc: Global) -> Result<Vec<Root>, AllocError>
    ensures { IfOk result (λ made. made.items ≡ sample.roots) }
{
    let mut roots = Vec::new(alloc);
    roots.push(root(alloc, "n", Ty::Num(INT))?)?;
    let many = Ty::Ptr {
        target: Some(Target::Pointers(TypeId(0))),
        kind: PtrKind::Length(Expr::Root(0)),
        reorder: false,
    };
    roots.push(root(alloc, "all", many)?)?;
    roots.push(root(alloc, "one", held(5, None))?)?;
    Ok(roots)
}

// The first structures.
fn some_structures(alloc: Global) -> Result<Vec<Structure>, AllocError>
    ensures { IfOk result (λ made. made.items ≡ sample.item ∷ sample.base ∷ sample.wide ∷ sample.form ∷ sample.pay ∷ sample.cell ∷ []) }
{
    let mut some = Vec::new(alloc);
    some.push(item(alloc)?)?;
    some.push(base(alloc)?)?;
    some.push(wide(alloc)?)?;
    some.push(form(alloc)?)?;
    some.push(pay(alloc)?)?;
    some.push(cell(alloc)?)?;
    Ok(some)
}

fn structures(alloc: Global) -> Result<Vec<Structure>, AllocError>
    ensures { IfOk result (λ made. made.items ≡ sample.structures) }
{
    let mut all = some_structures(alloc)?;
    all.push(vec(alloc)?)?;
    all.push(hold(alloc)?)?;
    all.push(duo(alloc)?)?;
    all.push(two(alloc)?)?;
    all.push(vecb(alloc)?)?;
    all.push(any(alloc)?)?;
    all.push(rest(alloc)?)?;
    all.push(big(alloc)?)?;
    all.push(bigv(alloc)?)?;
    all.push(kindv(alloc)?)?;
    all.push(ever(alloc)?)?;
    all.push(label(alloc)?)?;
    all.push(twin(alloc)?)?;
    all.push(lone(alloc)?)?;
    Ok(all)
}

/// The sample.
pub fn sample(alloc: Global) -> Result<Program, AllocError>
    ensures { IfOk result (λ program. program ≡ sample.sample) }
{
    let structures = structures(alloc)?;
    let roots = roots(alloc)?;
    Ok(Program {
        structures: List::of(structures),
        roots: List::of(roots),
        caches: List::new(alloc),
        words: List::new(alloc),
    })
}
