// Which structures headers declare as inner.
ghost use Rattle.std.specs.Prelude.{◌≡◌, IfOk};
ghost use Rattle.std.specs.List.{list_any};
ghost use Rattle.std.specs.Bool.{Decides};
ghost use Rattle.gt_types.specs.declared.types.TypeId.{TypeId};
ghost use Rattle.gt_paths.specs.Numbers.{mark_at};
ghost use Rattle.gt_rules.specs.Inner.{IsDeclaredInner, has_outer_option, is_declared_inner, is_outer, has_outer_desc, is_outer_kind, is_outer_option, names_container, parameter_names_container};

use gt_drafts::{Draft, DraftField, DraftStructure};
use gt_expr::RawExpr;
use gt_items::{Parameter, RawOption};
use gt_markers::{OptionKind, has_skip, option_named};
use gt_types::{Base, List};
use std::alloc::{AllocError, Global};

fn is_outer(base: Base) -> bool
    ensures { result ≡ is_outer base }
{
    matches!(base, Base::Outer)
}

// Whether an expression has a path that begins at the structure that contains its own.
fn names_container(e: &RawExpr) -> bool
    ensures { result ≡ names_container e.now }
{
    match e {
        RawExpr::Int(_) | RawExpr::Named(_) => false,
        RawExpr::Path { base, .. } => is_outer(*base),
        RawExpr::One { a, .. } => names_container(a.get()),
        RawExpr::Two { a, b, .. } => names_container(a.get()) || names_container(b.get()),
        RawExpr::Cond { test, yes, no } => {
            names_container(test.get()) || names_container(yes.get()) || names_container(no.get())
        }
    }
}

// Whether the parameter of an option is such an expression.
fn parameter_names_container(parameter: &Parameter) -> bool
    ensures { result ≡ parameter_names_container parameter.now }
{
    match parameter {
        Parameter::Expression(e) => names_container(e),
        Parameter::Absent | Parameter::Text(_) => false,
    }
}

fn is_outer_kind(kind: Option<OptionKind>) -> bool
    ensures { result ≡ is_outer_kind kind }
{
    !matches!(kind, Some(OptionKind::Desc | OptionKind::Reorder))
}

// Whether an option of a field names the structure that contains the field's own.
fn is_outer_option(option: &RawOption) -> bool
    ensures { result ≡ is_outer_option option.now }
{
    is_outer_kind(OptionKind::of(&option.name.word)) && parameter_names_container(&option.parameter)
}

// Whether one of some options of a field does.
fn is_some_outer(options: &[RawOption]) -> bool
    ensures { result ≡ list_any is_outer_option options.now }
{
    options.iter().any(|option| is_outer_option(option))
}

// Whether a field without `skip` has such an option.
fn has_outer_option(field: &DraftField) -> bool
    ensures { result ≡ has_outer_option field.now }
{
    !has_skip(field.options.as_slice()) && is_some_outer(field.options.as_slice())
}

// Whether one of some fields has such an option.
fn is_some_field_outer(fields: &[DraftField]) -> bool
    ensures { result ≡ list_any has_outer_option fields.now }
{
    fields.iter().any(|field| has_outer_option(field))
}

// Whether the own `desc` of a structure, of two the first, names the structure that contains it.
fn has_outer_desc(options: &[RawOption]) -> bool
    ensures { result ≡ has_outer_desc options.now }
{
    match option_named(options, "desc") {
        Some(option) => parameter_names_container(&option.parameter),
        None => false,
    }
}

// Whether a structure is declared inner.
fn is_declared_inner(structure: &DraftStructure) -> bool
    ensures { result ≡ is_declared_inner structure.now }
{
    has_outer_desc(structure.options.as_slice()) || is_some_field_outer(structure.fields.as_slice())
}

/// For each structure, whether headers declare it inner. Its only error is out of memory.
pub fn declared_inner(alloc: Global, draft: &Draft) -> Result<List<bool>, AllocError>
    ensures inner { IfOk result (λ marks. (id : TypeId) → Decides (mark_at marks id.0) (IsDeclaredInner draft.now id)) }
{
    let mut marks = Vec::new(alloc);
    for structure in draft.structures.as_slice() {
        marks.push(is_declared_inner(structure))?;
    }
    Ok(List::of(marks))
}
