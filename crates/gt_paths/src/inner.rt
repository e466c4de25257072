// Which structures are inner.
ghost use Rattle.std.specs.Prelude.{Any, IfOk, option_to_list};
ghost use Rattle.std.specs.Bool.{Decides};
ghost use Rattle.gt_types.specs.declared.expressions.Base.TheVariants.{Outer};
ghost use Rattle.gt_types.specs.declared.program.Field.{Field};
ghost use Rattle.gt_types.specs.Paths.{NamesOuter, own_expressions};
ghost use Rattle.gt_types.specs.Shapes.{count_of};
ghost use Rattle.gt_paths.specs.Marks.{AreInner};
ghost use Rattle.gt_paths.specs.Results.{HasResult};

use crate::expressions::names_base;
use crate::structures::count_of;
use gt_types::{Base, Expr, Field, List, Program, Structure};
use std::alloc::{AllocError, Global};

fn is_outer_length(f: &Field) -> bool
    ensures { Decides result (HasResult (λ (g : Field). count_of g.ty) NamesOuter f.now) }
{
    match count_of(&f.ty) {
        Some(count) => names_base(count, Base::Outer),
        None => false,
    }
}

fn has_outer_length(fields: &[Field]) -> bool
    ensures { Decides result (Any (HasResult (λ (g : Field). count_of g.ty) NamesOuter) fields.now) }
{
    for f in fields {
        if is_outer_length(f) {
            return true;
        }
    }
    false
}

fn has_outer_desc(desc: &Option<Expr>) -> bool
    ensures { Decides result (Any NamesOuter (option_to_list desc.now)) }
{
    match desc {
        Some(e) => names_base(e, Base::Outer),
        None => false,
    }
}

// Whether one of the expressions of a structure that speak of itself names the structure that contains it.
fn names_container(s: &Structure) -> bool
    ensures { Decides result (Any NamesOuter (own_expressions s.now)) }
{
    if has_outer_length(s.fields.as_slice()) {
        return true;
    }
    has_outer_desc(&s.desc)
}

/// For each structure, whether it is inner. Its only error is out of memory.
pub fn inner_marks(alloc: Global, program: &Program) -> Result<List<bool>, AllocError>
    ensures inner { IfOk result (AreInner program.now) }
{
    let mut marks = Vec::new(alloc);
    for s in program.structures.as_slice() {
        marks.push(names_container(s))?;
    }
    Ok(List::of(marks))
}
