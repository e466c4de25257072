// The lines of structures.
ghost use Rattle.std.specs.Prelude.{◌≡◌, ◌∷◌, ◌++◌, [], codes, OnOk};
ghost use Rattle.std.specs.List.{flat_map};
ghost use Rattle.gt_digits.specs.Digits.{decimal};
ghost use Rattle.gt_canon.specs.Lines.{spaced};
ghost use Rattle.gt_canon.specs.Canon.{structure_word};
ghost use Rattle.gt_listing.specs.Listing.{active_words, chain_line, chain_word, field_line, field_lines, structure_lines};

use crate::types::push_type;
use gt_canon::{push_integer, push_named, push_number, push_path, push_word};
use gt_digits::push_decimal;
use gt_layout::{FieldSpot, Plane};
use gt_types::{Active, Bytes, Chain, ChainKind, Field, Program, Structure};
use std::alloc::{AllocError, Global};

/// Adds the lines of a structure, and the mark of a tail type where it is one.
pub fn push_structure_lines(
    alloc: Global,
    text: &mut Bytes,
    program: &Program,
    s: &Structure,
    plane: &Plane,
    tail: bool,
) -> Result<(), AllocError>
    ensures added { OnOk result (text.new ≡ text.old ++ structure_lines program.now s.now plane.now tail) }
{
    text.append(structure_spelling(s.is_union))?;
    push_named(text, &s.name)?;
    push_extent(alloc, text, plane)?;
    if tail {
        push_word(text, b"tail")?;
    }
    text.push(b'\n')?;
    push_fields(
        alloc,
        text,
        program,
        s.fields.as_slice(),
        plane.fields.as_slice(),
    )?;
    push_chains(text, program, s.fields.as_slice(), s.chains.as_slice())
}

// Adds the size and the alignment of a structure.
fn push_extent(alloc: Global, text: &mut Bytes, plane: &Plane) -> Result<(), AllocError>
    ensures added { OnOk result (text.new ≡ text.old ++ spaced (codes "size" ∷ decimal plane.now.size ∷ codes "align" ∷ decimal plane.now.align ∷ [])) }
{
    push_word(text, b"size")?;
    push_number(alloc, text, plane.size as u64)?;
    push_word(text, b"align")?;
    push_number(alloc, text, plane.align as u64)
}

// Adds the lines of fields at their places.
fn push_fields(
    alloc: Global,
    text: &mut Bytes,
    program: &Program,
    fields: &[Field],
    spots: &[FieldSpot],
) -> Result<(), AllocError>
    ensures added { OnOk result (text.new ≡ text.old ++ field_lines program.now fields.now spots.now) }
{
    for (i, f) in fields.iter().enumerate() {
        let Some(s) = spots.get(i) else {
            return Ok(());
        };
        push_field(alloc, text, program, f, *s)?;
    }
    Ok(())
}

// Adds the line of a field.
fn push_field(
    alloc: Global,
    text: &mut Bytes,
    program: &Program,
    f: &Field,
    s: FieldSpot,
) -> Result<(), AllocError>
    ensures added { OnOk result (text.new ≡ text.old ++ field_line program.now f.now s) }
{
    text.append(b"  ")?;
    push_decimal(alloc, text, s.offset as u64)?;
    push_named(text, &f.name)?;
    push_type(alloc, text, program, s.bit, &f.ty)?;
    push_active(alloc, text, f.active)?;
    text.push(b'\n')
}

// Adds when a member of a union is active.
fn push_active(alloc: Global, text: &mut Bytes, active: Active) -> Result<(), AllocError>
    ensures added { OnOk result (text.new ≡ text.old ++ spaced (active_words active)) }
{
    match active {
        Active::Always => Ok(()),
        Active::Tag(tag) => {
            text.append(b" tag ")?;
            push_integer(alloc, text, tag)
        }
        Active::Other => push_word(text, b"default"),
        Active::Never => push_word(text, b"never"),
    }
}

// Adds the lines of chains of a structure with these fields.
fn push_chains(
    text: &mut Bytes,
    program: &Program,
    fields: &[Field],
    chains: &[Chain],
) -> Result<(), AllocError>
    ensures added { OnOk result (text.new ≡ text.old ++ flat_map (chain_line program.now fields.now) chains.now) }
{
    for c in chains {
        push_chain(text, program, fields, c)?;
    }
    Ok(())
}

// Adds the line of a chain.
fn push_chain(
    text: &mut Bytes,
    program: &Program,
    fields: &[Field],
    c: &Chain,
) -> Result<(), AllocError>
    ensures added { OnOk result (text.new ≡ text.old ++ chain_line program.now fields.now c.now) }
{
    text.append(b"  ")?;
    text.append(chain_spelling(c.kind))?;
    text.push(b' ')?;
    push_path(text, program, fields, c.path.as_slice())?;
    text.push(b'\n')
}

fn structure_spelling(is_union: bool) -> &'static [u8]
    ensures spelling { result.now ≡ structure_word is_union }
{
    if is_union { b"union" } else { b"struct" }
}

fn chain_spelling(kind: ChainKind) -> &'static [u8]
    ensures spelling { result.now ≡ chain_word kind }
{
    match kind {
        ChainKind::Next => b"chain_next",
        ChainKind::Prev => b"chain_prev",
        ChainKind::Circular => b"chain_circular",
    }
}
