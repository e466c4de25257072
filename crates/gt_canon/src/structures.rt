// The lines of structures, roots and caches.
ghost use Rattle.std.specs.Prelude.{◌≡◌, ◌∷◌, ◌++◌, OnOk, encode_utf8_all};
ghost use Rattle.std.specs.List.{flat_map, join_with_byte};
ghost use Rattle.gt_canon.specs.Lines.{spaced};
ghost use Rattle.gt_canon.specs.Names.{names_on};
ghost use Rattle.gt_canon.specs.Canon.{active_words, cache_line, chain_line, chain_word, field_line, root_line, structure_lines, structure_word};

use crate::lines::{push_integer, push_word};
use crate::names::{fields_inside, push_field_name, push_name};
use crate::types::{push_desc, push_structure, push_type};
use gt_types::{Active, Bytes, Cache, Chain, ChainKind, Field, Program, Root, Structure, Word};
use std::alloc::{AllocError, Global};

/// Adds the lines of a structure.
pub fn push_structure_lines(
    alloc: Global,
    text: &mut Bytes,
    program: &Program,
    s: &Structure,
) -> Result<(), AllocError>
    ensures added { OnOk result (text.new ≡ text.old ++ structure_lines program.now s.now) }
{
    text.append(structure_spelling(s.is_union))?;
    push_named(text, &s.name)?;
    push_desc(alloc, text, program, &s.desc)?;
    text.push(b'\n')?;
    push_fields(alloc, text, program, s.fields.as_slice())?;
    push_chains(text, program, s.fields.as_slice(), s.chains.as_slice())
}

// Adds the lines of fields.
fn push_fields(
    alloc: Global,
    text: &mut Bytes,
    program: &Program,
    fields: &[Field],
) -> Result<(), AllocError>
    ensures added { OnOk result (text.new ≡ text.old ++ flat_map (field_line program.now) fields.now) }
{
    for f in fields {
        push_field(alloc, text, program, f)?;
    }
    Ok(())
}

fn push_field(
    alloc: Global,
    text: &mut Bytes,
    program: &Program,
    f: &Field,
) -> Result<(), AllocError>
    ensures added { OnOk result (text.new ≡ text.old ++ field_line program.now f.now) }
{
    text.append(b"field")?;
    push_named(text, &f.name)?;
    push_type(alloc, text, program, &f.ty)?;
    push_active(alloc, text, f.active)?;
    text.push(b'\n')
}

fn push_active(alloc: Global, text: &mut Bytes, active: Active) -> Result<(), AllocError>
    ensures added { OnOk result (text.new ≡ text.old ++ spaced (active_words active)) }
{
    match active {
        Active::Always => push_word(text, b"always"),
        Active::Tag(tag) => {
            text.append(b" tag ")?;
            push_integer(alloc, text, tag)
        }
        Active::Other => push_word(text, b"default"),
        Active::Never => push_word(text, b"never"),
    }
}

// Adds the lines of chains of a structure with these fields.
fn push_chains(
    text: &mut Bytes,
    program: &Program,
    fields: &[Field],
    chains: &[Chain],
) -> Result<(), AllocError>
    ensures added { OnOk result (text.new ≡ text.old ++ flat_map (chain_line program.now fields.now) chains.now) }
{
    for c in chains {
        push_chain(text, program, fields, c)?;
    }
    Ok(())
}

fn push_chain(
    text: &mut Bytes,
    program: &Program,
    fields: &[Field],
    c: &Chain,
) -> Result<(), AllocError>
    ensures added { OnOk result (text.new ≡ text.old ++ chain_line program.now fields.now c.now) }
{
    text.append(b"chain")?;
    push_word(text, chain_spelling(c.kind))?;
    text.push(b' ')?;
    push_path(text, program, fields, c.path.as_slice())?;
    text.push(b'\n')
}

/// Adds the names of the fields on a path, with dots between them. It goes as deep as the path is long.
pub fn push_path(
    text: &mut Bytes,
    program: &Program,
    fields: &[Field],
    path: &[u32],
) -> Result<(), AllocError>
    ensures added { OnOk result (text.new ≡ text.old ++ join_with_byte 46 (names_on program.now fields.now path.now)) }
{
    let [place, rest @ ..] = path else {
        return Ok(());
    };
    let field = fields.get(*place as usize);
    push_field_name(text, field)?;
    if rest.is_empty() {
        return Ok(());
    }
    text.push(b'.')?;
    push_path(text, program, fields_inside(program, field), rest)
}

/// Adds the line of a root.
pub fn push_root(
    alloc: Global,
    text: &mut Bytes,
    program: &Program,
    r: &Root,
) -> Result<(), AllocError>
    ensures added { OnOk result (text.new ≡ text.old ++ root_line program.now r.now) }
{
    text.append(b"root")?;
    push_named(text, &r.name)?;
    push_type(alloc, text, program, &r.ty)?;
    if r.deletable {
        push_word(text, b"deletable")?;
    }
    text.push(b'\n')
}

/// Adds the line of a cache.
pub fn push_cache(text: &mut Bytes, program: &Program, c: &Cache) -> Result<(), AllocError>
    ensures added { OnOk result (text.new ≡ text.old ++ cache_line program.now c.now) }
{
    text.append(b"cache")?;
    push_named(text, &c.name)?;
    push_structure(text, program, c.key)?;
    push_structure(text, program, c.value)?;
    text.push(b'\n')
}

/// Adds a name after a space.
pub fn push_named(text: &mut Bytes, name: &Word) -> Result<(), AllocError>
    ensures added { OnOk result (text.new ≡ text.old ++ 32 ∷ encode_utf8_all name.now) }
{
    text.push(b' ')?;
    push_name(text, name)
}

fn structure_spelling(is_union: bool) -> &'static [u8]
    ensures spelling { result.now ≡ structure_word is_union }
{
    if is_union { b"union" } else { b"struct" }
}

fn chain_spelling(kind: ChainKind) -> &'static [u8]
    ensures spelling { result.now ≡ chain_word kind }
{
    match kind {
        ChainKind::Next => b"next",
        ChainKind::Prev => b"prev",
        ChainKind::Circular => b"circular",
    }
}
