// Zero.
ghost use Rattle.std.specs.Prelude.{◌≡◌, ◌≤◌, ◌<◌, ℕ, true, false, length, map, Some, None, IfSome, pos, All, IfOk, Err, Option};
ghost use Rattle.gt_types.specs.Settled.{Settled};
ghost use Rattle.gt_types.specs.Shapes.{dimensions};
ghost use Rattle.gt_types.specs.Contains.{HasStructure};
ghost use Rattle.gt_types.specs.declared.types.Ty.TheVariants.{Node};
ghost use Rattle.gt_types.specs.declared.program.Structure.{Structure};
ghost use Rattle.gt_layout.specs.Planes.{IsLaidOut};
ghost use Rattle.gt_layout.specs.Progress.{IsWithinDepth, HoldsWithinDepth};
ghost use Rattle.gt_tree.specs.Trees.{Tree, Trees, Rec};
ghost use Rattle.gt_tree.specs.Blocks.{Blocks};
ghost use Rattle.gt_tree.specs.Fits.{IsZeroOf, IsZeroRecord, types_of};
ghost use Rattle.gt_value.specs.Values.{tree_of, trees};
ghost use Rattle.gt_value.specs.Bytes.{IsElement};
ghost use Rattle.gt_value.specs.Noughts.{IsNought, AreNoughts, AreElements, zero_worth, zero_desc};
ghost use Rattle.gt_value.specs.declared.values.ValueFail.TheVariants.{Shape};

use crate::unions::{active_member, common_structure};
use crate::values::{Value, ValueFail};
use gt_layout::Layouts;
use gt_types::{
    Base, Boxed, Bytes, Expr, Field, MAX_DEPTH, Program, Reader, Structure, Ty, TypeId, Word, eval,
};
use std::alloc::Global;

// What expressions read in a zero value.
struct Zeros;

impl Reader for Zeros {
    ghost use Rattle.std.specs.Prelude.{Some, pos};

    ghost leaf_of = { λ zeros base steps. Some (pos 0) };

    ghost root_of = { λ zeros i. Some (pos 0) };

    fn leaf(&self, _base: &Base, _steps: &[Word]) -> Option<i64> {
        Some(0)
    }

    fn root(&self, _i: u32) -> Option<i64> {
        Some(0)
    }
}

// The value of a `desc` in a zero value.
fn zero_desc(desc: &Option<Expr>) -> Option<i64>
    ensures { result ≡ zero_desc desc.now }
{
    match desc {
        Some(desc) => eval(desc, &Zeros),
        None => None,
    }
}

// As many elements as a length says in a zero value, where there is room for them.
fn tail_length(len: &Expr, capacity: u32) -> Option<u32>
    ensures length { IfSome result (λ n. (zero_worth len.now ≡ Some (pos n)) × (n ≤ capacity)) }
    ensures none { result ≡ None → (n : ℕ) → zero_worth len.now ≡ Some (pos n) → capacity < n }
{
    match u32::try_from(eval(len, &Zeros)?) {
        Ok(n) if n <= capacity => Some(n),
        _ => None,
    }
}

// Zero of a type, inside which structures stand less deep than `depth`.
#[cycle(zeros)]
fn zero_of(
    alloc: Global,
    program: &Program,
    layouts: &Layouts,
    ty: &Ty,
    capacity: u32,
    depth: usize,
) -> Result<Value, ValueFail>
    requires settled { Settled program.now }
    requires laid { IsLaidOut program.now layouts.now }
    requires shallow { HoldsWithinDepth program.now ty.now depth }
    requires flat { dimensions ty.now ≤ 4 }
    ensures zero { IfOk result (λ v. IsNought program.now capacity ty.now (tree_of v)) }
    ensures shape { result ≡ Err Shape → (tree : Tree) → ¬ IsNought program.now capacity ty.now tree }
{
    match ty {
        Ty::Num(_) | Ty::Bits { .. } => Ok(Value::Num(0)),
        Ty::Opaque { size, .. } => {
            let bytes = vec![in alloc; 0u8; *size as usize]?;
            Ok(Value::Raw(Bytes::from_vec(bytes)))
        }
        Ty::Str(_) | Ty::Ptr { .. } => Ok(Value::Null),
        Ty::Node { id, desc } => zero_structure(
            alloc,
            program,
            layouts,
            *id,
            desc,
            capacity,
            depth - 1,
        ),
        Ty::Arr { n, elem } => {
            let parts = zero_elements(alloc, program, layouts, elem.get(), *n, capacity, depth)?;
            Ok(Value::Row(parts))
        }
        Ty::Tail { len, elem } => {
            let Some(n) = tail_length(len, capacity) else {
                return Err(ValueFail::Shape);
            };
            let parts = zero_elements(alloc, program, layouts, elem.get(), n, capacity, depth)?;
            Ok(Value::Row(parts))
        }
    }
}

// So many zeros of a type.
#[cycle(zeros)]
fn zero_elements(
    alloc: Global,
    program: &Program,
    layouts: &Layouts,
    elem: &Ty,
    n: u32,
    capacity: u32,
    depth: usize,
) -> Result<Vec<Value>, ValueFail>
    requires settled { Settled program.now }
    requires laid { IsLaidOut program.now layouts.now }
    requires shallow { HoldsWithinDepth program.now elem.now depth }
    requires flat { dimensions elem.now ≤ 4 }
    ensures zero { IfOk result (λ vs. AreElements program.now capacity n elem.now (trees (map tree_of vs.items))) }
    ensures shape { result ≡ Err Shape → (values : Trees) → ¬ AreElements program.now capacity n elem.now values }
{
    let mut parts = Vec::new(alloc);
    for _ in 0..n {
        let part = zero_of(alloc, program, layouts, elem, capacity, depth)?;
        parts.push(part)?;
    }
    Ok(parts)
}

// Zero of a structure, inside which structures stand at most so deep.
#[cycle(zeros)]
fn zero_structure(
    alloc: Global,
    program: &Program,
    layouts: &Layouts,
    id: TypeId,
    desc: &Option<Expr>,
    capacity: u32,
    depth: usize,
) -> Result<Value, ValueFail>
    requires settled { Settled program.now }
    requires laid { IsLaidOut program.now layouts.now }
    requires there { id.0 < length program.now.structures }
    requires shallow { IsWithinDepth program.now id.0 depth }
    ensures zero { IfOk result (λ v. IsNought program.now capacity (Node id desc.now) (tree_of v)) }
    ensures shape { result ≡ Err Shape → (tree : Tree) → ¬ IsNought program.now capacity (Node id desc.now) tree }
{
    let structure = &program.structures.as_slice()[id.0 as usize];
    if structure.is_union {
        return zero_union(
            alloc, program, layouts, id, structure, desc, capacity, depth,
        );
    }
    let parts = zero_fields(
        alloc,
        program,
        layouts,
        structure.fields.as_slice(),
        capacity,
        depth,
    )?;
    Ok(Value::Rec(parts))
}

// Zeros of fields.
#[cycle(zeros)]
fn zero_fields(
    alloc: Global,
    program: &Program,
    layouts: &Layouts,
    fields: &[Field],
    capacity: u32,
    depth: usize,
) -> Result<Vec<Value>, ValueFail>
    requires settled { Settled program.now }
    requires laid { IsLaidOut program.now layouts.now }
    requires shallow { All (λ f. HoldsWithinDepth program.now f.ty depth) fields.now }
    requires flat { All (λ f. dimensions f.ty ≤ 4) fields.now }
    ensures zero { IfOk result (λ vs. AreNoughts program.now capacity (types_of fields.now) (trees (map tree_of vs.items))) }
    ensures shape { result ≡ Err Shape → (values : Trees) → ¬ AreNoughts program.now capacity (types_of fields.now) values }
{
    let mut parts = Vec::new(alloc);
    for field in fields {
        let part = zero_of(alloc, program, layouts, &field.ty, capacity, depth)?;
        parts.push(part)?;
    }
    Ok(parts)
}

// Zero of a union: of the member that is active where all numbers are 0, else of its common structure, else nothing.
#[cycle(zeros)]
fn zero_union(
    alloc: Global,
    program: &Program,
    layouts: &Layouts,
    id: TypeId,
    structure: &Structure,
    desc: &Option<Expr>,
    capacity: u32,
    depth: usize,
) -> Result<Value, ValueFail>
    requires settled { Settled program.now }
    requires laid { IsLaidOut program.now layouts.now }
    requires has { HasStructure program.now id structure.now }
    requires union { structure.now.is_union ≡ true }
    requires shallow { IsWithinDepth program.now id.0 depth }
    ensures zero { IfOk result (λ v. IsNought program.now capacity (Node id desc.now) (tree_of v)) }
    ensures shape { result ≡ Err Shape → (tree : Tree) → ¬ IsNought program.now capacity (Node id desc.now) tree }
{
    let fields = structure.fields.as_slice();
    let worth = zero_desc(desc);
    if let Some(place) = active_member(program, layouts, id, structure, worth) {
        let ty = &fields[place as usize].ty;
        let value = zero_of(alloc, program, layouts, ty, capacity, depth)?;
        return Ok(Value::Alt {
            member: Some(place),
            value: Boxed::new(alloc, value)?,
        });
    }
    let value = match common_structure(program, layouts, id, structure) {
        Some(common) => zero_structure(
            alloc,
            program,
            layouts,
            common,
            &None,
            capacity,
            depth - 1,
        )?,
        None => Value::Rec(Vec::new(alloc)),
    };
    Ok(Value::Alt {
        member: None,
        value: Boxed::new(alloc, value)?,
    })
}

/// The zero value of an element of a block with room for so many elements at its end. `Shape` says that there is none: where
/// all numbers are 0 a length has no value, is negative, or is more than there is room for.
pub fn zero(
    alloc: Global,
    program: &Program,
    layouts: &Layouts,
    ty: &Ty,
    capacity: u32,
) -> Result<Value, ValueFail>
    requires settled { Settled program.now }
    requires laid { IsLaidOut program.now layouts.now }
    requires element { IsElement program.now ty.now }
    ensures zero { IfOk result (λ v. (blocks : Blocks) (statics : Trees) → IsZeroOf program.now blocks statics capacity ty.now (tree_of v)) }
    ensures shape { result ≡ Err Shape → (blocks : Blocks) (statics : Trees) (tree : Tree) → ¬ IsZeroOf program.now blocks statics capacity ty.now tree }
{
    zero_of(alloc, program, layouts, ty, capacity, MAX_DEPTH + 1)
}

/// The zero value of the static record: the fields of a struct are those of the roots. `Shape` says that there is none.
pub fn zero_statics(alloc: Global, program: &Program, layouts: &Layouts) -> Result<Value, ValueFail>
    requires settled { Settled program.now }
    requires laid { IsLaidOut program.now layouts.now }
    ensures zero { IfOk result (λ v. (values : Trees) × (tree_of v ≡ Rec values) × ((blocks : Blocks) → IsZeroRecord program.now blocks values)) }
    ensures shape { result ≡ Err Shape → (blocks : Blocks) (values : Trees) → ¬ IsZeroRecord program.now blocks values }
{
    let mut parts = Vec::new(alloc);
    for root in program.roots.as_slice() {
        let part = zero_of(alloc, program, layouts, &root.ty, 0, MAX_DEPTH + 1)?;
        parts.push(part)?;
    }
    Ok(Value::Rec(parts))
}
