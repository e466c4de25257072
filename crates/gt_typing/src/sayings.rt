// What the options of a field or a root say of its type.
ghost use Rattle.std.specs.Prelude.{◌≡◌, IsTrue, IfOk};
ghost use Rattle.std.specs.List.{list_all};
ghost use Rattle.std.specs.Char.{is_ascii};
ghost use Rattle.gt_drafts.specs.declared.draft.Draft.{Draft};
ghost use Rattle.gt_markers.specs.Expressions.{expression_of};
ghost use Rattle.gt_markers.specs.Lookups.{IsLookupOf};
ghost use Rattle.gt_markers.specs.NameScopes.{names_of};
ghost use Rattle.gt_markers.specs.Typing.{expression_named, says, of_elements};
ghost use Rattle.gt_markers.specs.declared.type_options.TypeOptions.{TypeOptions};

use gt_items::{Parameter, RawOption};
use gt_markers::{Lookup, Scope, TypeOptions, has_option, option_named, with_names};
use gt_types::Expr;
use std::alloc::{AllocError, Global};

// The expression of a parameter; a missing one counts as 0.
fn expression_of(
    alloc: Global,
    lookup: &Lookup,
    scope: Scope,
    parameter: &Parameter,
) -> Result<Expr, AllocError>
    ensures expression { IfOk result (λ e. (draft : Draft) → IsLookupOf draft lookup.now → e ≡ expression_of (names_of scope draft) parameter.now) }
{
    match parameter {
        Parameter::Expression(raw) => with_names(alloc, lookup, scope, raw),
        _ => Ok(Expr::Int(0)),
    }
}

/// The expression of an option of a name of ASCII characters, where it stands there. It fails only if memory runs out.
pub fn expression_named(
    alloc: Global,
    lookup: &Lookup,
    scope: Scope,
    options: &[RawOption],
    name: &str,
) -> Result<Option<Expr>, AllocError>
    requires ascii { IsTrue (list_all is_ascii name.now) }
    ensures expression { IfOk result (λ e. (draft : Draft) → IsLookupOf draft lookup.now → e ≡ expression_named (names_of scope draft) name.now options.now) }
{
    match option_named(options, name) {
        None => Ok(None),
        Some(option) => Ok(Some(expression_of(alloc, lookup, scope, &option.parameter)?)),
    }
}

/// What the options of a field or a root say of its type. It fails only if memory runs out.
pub fn type_options(
    alloc: Global,
    lookup: &Lookup,
    scope: Scope,
    options: &[RawOption],
) -> Result<TypeOptions, AllocError>
    ensures says { IfOk result (λ s. (draft : Draft) → IsLookupOf draft lookup.now → s ≡ says (names_of scope draft) options.now) }
{
    Ok(TypeOptions {
        length: expression_named(alloc, lookup, scope, options, "length")?,
        string_length: expression_named(alloc, lookup, scope, options, "string_length")?,
        desc: expression_named(alloc, lookup, scope, options, "desc")?,
        atomic: has_option(options, "atomic"),
        maybe_undef: has_option(options, "maybe_undef"),
        reorder: has_option(options, "reorder"),
    })
}

/// Of the elements of an array options say no more than the `desc`.
pub fn of_elements(desc: Option<Expr>) -> TypeOptions
    ensures { (options : TypeOptions) → options.desc ≡ desc → result ≡ of_elements options }
{
    TypeOptions {
        length: None,
        string_length: None,
        desc,
        atomic: false,
        maybe_undef: false,
        reorder: false,
    }
}
