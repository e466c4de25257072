// What pointers name by their declarations.
ghost use Rattle.std.specs.Prelude.{◌≡◌, option_map};
ghost use Rattle.std.specs.Bool.{Decides};
ghost use Rattle.gt_markers.specs.Typing.{node};
ghost use Rattle.gt_typing.specs.SmallTypes.{HasSmallId};
ghost use Rattle.gt_declare.specs.Programs.{pointed};
ghost use Rattle.gt_rules.specs.Inner.{IsDeclaredInner};
ghost use Rattle.gt_rules.specs.Faults.{IsBareUnion, held_node, is_plain, named_by, names_node, plain_node};
ghost use Rattle.gt_rules.specs.Parts.{IsIndexFor, Names};

use crate::known::Known;
use gt_drafts::{BaseType, DeclaredType};
use gt_items::{RawOption, Stars};
use gt_markers::{has_option, has_skip};
use gt_paths::{is_bare_union, is_inner};
use gt_types::{Program, TypeId};
use gt_typing::node;

// The structure that a pointer, or a pointer to pointers, names by its declaration.
fn named_by(base: &BaseType, stars: Stars) -> Option<TypeId>
    requires small { HasSmallId base.now }
    ensures { result ≡ option_map node (named_by base.now stars) }
{
    match (base, stars) {
        (BaseType::Structure(id), Stars::One | Stars::Two) => Some(node(*id)),
        _ => None,
    }
}

/// The structure that a pointer without `skip` names by its declaration.
pub fn names_node(options: &[RawOption], ty: &DeclaredType) -> Option<TypeId>
    requires small { HasSmallId ty.now.resolved.base }
    ensures named { result ≡ option_map node (names_node options.now ty.now) }
{
    if has_skip(options) || ty.is_function {
        return None;
    }
    named_by(&ty.resolved.base, ty.resolved.stars)
}

/// The structure that a root holds by its declaration, alone or in an array.
pub fn held_node(ty: &DeclaredType) -> Option<TypeId>
    requires small { HasSmallId ty.now.resolved.base }
    ensures held { result ≡ held_node ty.now }
{
    match (&ty.resolved.base, ty.resolved.stars, ty.is_function) {
        (BaseType::Structure(id), Stars::Zero, false) => Some(node(*id)),
        _ => None,
    }
}

// The structure to which one star is a pointer.
fn pointer_target(base: &BaseType, stars: Stars) -> Option<TypeId>
    requires small { HasSmallId base.now }
    ensures { result ≡ pointed base.now stars }
{
    match (base, stars) {
        (BaseType::Structure(id), Stars::One) => Some(node(*id)),
        _ => None,
    }
}

// Whether what is no array and no function has neither `length` nor `atomic`.
fn is_plain(options: &[RawOption], ty: &DeclaredType) -> bool
    ensures { result ≡ is_plain options.now ty.now }
{
    ty.bounds.is_empty()
        && !ty.is_function
        && !(has_option(options, "length") || has_option(options, "atomic"))
}

/// The structure to which a root is a plain pointer by its declaration.
pub fn plain_node(options: &[RawOption], ty: &DeclaredType) -> Option<TypeId>
    requires small { HasSmallId ty.now.resolved.base }
    ensures named { result ≡ plain_node options.now ty.now }
{
    if is_plain(options, ty) {
        pointer_target(&ty.resolved.base, ty.resolved.stars)
    } else {
        None
    }
}

/// Whether what is named is a union without a `desc` of its own.
pub fn is_bare(program: &Program, named: Option<TypeId>) -> bool
    ensures decides { Decides result (Names named (IsBareUnion program.now)) }
{
    match named {
        None => false,
        Some(id) => is_bare_union(program, id),
    }
}

// Whether a structure is declared inner.
fn is_declared_inner(known: Known, id: TypeId) -> bool
    requires index { IsIndexFor known.draft.now known.program.now known.index.now }
    ensures decides { Decides result (IsDeclaredInner known.entry.draft.now id) }
{
    is_inner(known.index, id)
}

/// Whether what is named is an inner structure.
pub fn is_named_inner(known: Known, named: Option<TypeId>) -> bool
    requires index { IsIndexFor known.draft.now known.program.now known.index.now }
    ensures decides { Decides result (Names named (IsDeclaredInner known.entry.draft.now)) }
{
    match named {
        None => false,
        Some(id) => is_declared_inner(known, id),
    }
}
