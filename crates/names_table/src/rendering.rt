// A draft in the notation of the table.

use gt_drafts::{
    Amount, BaseType, DeclaredType, Draft, DraftCache, DraftRoot, DraftStructure, Resolved,
};
use gt_items::{Keyword, RawOption, Stars};
use gt_types::{Scalar, Width, Word};
use std::alloc::{AllocError, Global};
use std::fmt::Write;

/// What headers declare: structures, roots, caches, words of typedefs and constants, with a space between each two.
pub fn rendered(alloc: Global, draft: &Draft) -> Result<String, AllocError> {
    let structures = draft.structures.as_slice();
    let mut out = String::new(alloc);
    for structure in structures {
        add_structure(&mut out, structures, structure)?;
    }
    for root in draft.roots.as_slice() {
        add_root(&mut out, structures, root)?;
    }
    for cache in draft.caches.as_slice() {
        add_cache(&mut out, structures, cache)?;
    }
    for word in draft.words.as_slice() {
        let star = if word.pointer { "*" } else { "" };
        let tag = tag_of(structures, word.id);
        write!(out, " word {} {star}{tag}", word.name.as_str())?;
    }
    for constant in draft.constants.as_slice() {
        write!(
            out,
            " constant {} {}",
            constant.name.as_str(),
            constant.value
        )?;
    }
    match out.as_str().strip_prefix(' ') {
        Some(parts) => String::from_str(alloc, parts),
        None => String::from_str(alloc, "(nothing)"),
    }
}

// ` struct s@option {a i4, b *s}`.
fn add_structure(
    out: &mut String,
    structures: &[DraftStructure],
    structure: &DraftStructure,
) -> Result<(), AllocError> {
    let keyword = if structure.is_union {
        " union "
    } else {
        " struct "
    };
    out.push_str(keyword)?;
    add_name(
        out,
        structure.file,
        &structure.tag.word,
        structure.options.as_slice(),
    )?;
    let mut before = " {";
    for field in structure.fields.as_slice() {
        out.push_str(before)?;
        add_name(out, 1, &field.name.word, field.options.as_slice())?;
        out.push(' ')?;
        add_type(out, structures, &field.ty)?;
        before = ", ";
    }
    out.push('}')
}

// ` root r@option *s`.
fn add_root(
    out: &mut String,
    structures: &[DraftStructure],
    root: &DraftRoot,
) -> Result<(), AllocError> {
    out.push_str(" root ")?;
    add_name(out, root.file, &root.name.word, root.options.as_slice())?;
    out.push(' ')?;
    add_type(out, structures, &root.ty)
}

// ` cache m@cache *key *value`.
fn add_cache(
    out: &mut String,
    structures: &[DraftStructure],
    cache: &DraftCache,
) -> Result<(), AllocError> {
    out.push_str(" cache ")?;
    add_name(out, cache.file, &cache.name.word, cache.options.as_slice())?;
    out.push(' ')?;
    add_resolved(out, structures, &cache.key)?;
    out.push(' ')?;
    add_resolved(out, structures, &cache.value)
}

// A name after its file, where that is not the first, and before the names of its options.
fn add_name(
    out: &mut String,
    file: u32,
    name: &Word,
    options: &[RawOption],
) -> Result<(), AllocError> {
    if file != 1 {
        write!(out, "{file}:")?;
    }
    out.push_str(name.as_str())?;
    for option in options {
        write!(out, "@{}", option.name.word.as_str())?;
    }
    Ok(())
}

// `[3]*s`, `bits 4 u4` or `fn void`.
fn add_type(
    out: &mut String,
    structures: &[DraftStructure],
    declared: &DeclaredType,
) -> Result<(), AllocError> {
    for bound in declared.bounds.as_slice() {
        out.push('[')?;
        add_amount(out, *bound)?;
        out.push(']')?;
    }
    if let Some(bits) = declared.bits {
        out.push_str("bits ")?;
        add_amount(out, bits)?;
        out.push(' ')?;
    }
    if declared.is_function {
        out.push_str("fn ")?;
    }
    add_resolved(out, structures, &declared.resolved)
}

// The value of a bound or a bit count, and nothing for what is not read. No draft has another.
fn add_amount(out: &mut String, amount: Amount) -> Result<(), AllocError> {
    match amount {
        Amount::Unread => Ok(()),
        Amount::Is(value) => write!(out, "{value}"),
        Amount::NoExpression | Amount::Undefined | Amount::NoValue => out.push('?'),
    }
}

fn add_resolved(
    out: &mut String,
    structures: &[DraftStructure],
    resolved: &Resolved,
) -> Result<(), AllocError> {
    out.push_str(stars(resolved.stars))?;
    match &resolved.base {
        BaseType::Number { scalar, is_char } => {
            out.push_str(if *is_char { "char " } else { "" })?;
            out.push_str(number(*scalar))
        }
        BaseType::Float => out.push_str("float"),
        BaseType::Double => out.push_str("double"),
        BaseType::Sizeless => out.push_str("void"),
        BaseType::Structure(at) => out.push_str(tag_of(structures, *at)),
        BaseType::Undefined { keyword, tag } => {
            write!(out, "?{} {}", keyword_text(*keyword), tag.as_str())
        }
        BaseType::Unknown => out.push('?'),
    }
}

// The tag of the structure at a place. Each structure that a draft names is one of its own.
fn tag_of(structures: &[DraftStructure], at: usize) -> &str {
    match structures.get(at) {
        Some(structure) => structure.tag.word.as_str(),
        None => "?",
    }
}

fn stars(stars: Stars) -> &'static str {
    match stars {
        Stars::Zero => "",
        Stars::One => "*",
        Stars::Two => "**",
        Stars::More => "***",
    }
}

fn keyword_text(keyword: Keyword) -> &'static str {
    match keyword {
        Keyword::Struct => "struct",
        Keyword::Union => "union",
        Keyword::Enum => "enum",
    }
}

fn number(scalar: Scalar) -> &'static str {
    match scalar {
        Scalar::Bool => "bool",
        Scalar::Int { width, signed } => match (width, signed) {
            (Width::W1, true) => "i1",
            (Width::W2, true) => "i2",
            (Width::W4, true) => "i4",
            (Width::W8, true) => "i8",
            (Width::W1, false) => "u1",
            (Width::W2, false) => "u2",
            (Width::W4, false) => "u4",
            (Width::W8, false) => "u8",
        },
    }
}
