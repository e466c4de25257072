// The text of `tables`.
ghost use Rattle.std.specs.Prelude.{◌≡◌, ◌++◌, IfOk, OnOk};
ghost use Rattle.std.specs.List.{flat_map};
ghost use Rattle.gt_listing.specs.Listing.{all_structure_lines, cache_line, listing, root_line};

use crate::structures::push_structure_lines;
use crate::types::push_type;
use gt_canon::{push_named, push_structure, push_word};
use gt_layout::{Layouts, Plane};
use gt_types::{Bytes, Cache, Program, Root, Structure};
use std::alloc::{AllocError, Global};

/// The lines of a program with its layouts, each with a newline at its end, where `tails` says of each structure whether it is of a tail
/// type. Sizes, alignments and offsets are in bytes. Its time is linear in the text but for the path of each chain. It fails only if memory runs out.
pub fn list_program(
    alloc: Global,
    program: &Program,
    layouts: &Layouts,
    tails: &[bool],
) -> Result<Bytes, AllocError>
    ensures text { IfOk result (λ text. text ≡ listing program.now layouts.now tails.now) }
{
    let mut text = Bytes::new(alloc);
    let structures = program.structures.as_slice();
    push_structures(
        alloc,
        &mut text,
        program,
        structures,
        layouts.structures.as_slice(),
        tails,
    )?;
    push_roots(alloc, &mut text, program)?;
    push_caches(&mut text, program)?;
    Ok(text)
}

// Adds the lines of structures.
fn push_structures(
    alloc: Global,
    text: &mut Bytes,
    program: &Program,
    structures: &[Structure],
    planes: &[Plane],
    tails: &[bool],
) -> Result<(), AllocError>
    ensures added { OnOk result (text.new ≡ text.old ++ all_structure_lines program.now structures.now planes.now tails.now) }
{
    for (i, s) in structures.iter().enumerate() {
        let (Some(plane), Some(tail)) = (planes.get(i), tails.get(i)) else {
            return Ok(());
        };
        push_structure_lines(alloc, text, program, s, plane, *tail)?;
    }
    Ok(())
}

// Adds the lines of the roots.
fn push_roots(alloc: Global, text: &mut Bytes, program: &Program) -> Result<(), AllocError>
    ensures added { OnOk result (text.new ≡ text.old ++ flat_map (root_line program.now) program.now.roots) }
{
    for r in program.roots.as_slice() {
        push_root(alloc, text, program, r)?;
    }
    Ok(())
}

// Adds the line of a root.
fn push_root(alloc: Global, text: &mut Bytes, program: &Program, r: &Root) -> Result<(), AllocError>
    ensures added { OnOk result (text.new ≡ text.old ++ root_line program.now r.now) }
{
    text.append(b"root")?;
    push_named(text, &r.name)?;
    push_type(alloc, text, program, 0, &r.ty)?;
    if r.deletable {
        push_word(text, b"deletable")?;
    }
    text.push(b'\n')
}

// Adds the lines of the caches.
fn push_caches(text: &mut Bytes, program: &Program) -> Result<(), AllocError>
    ensures added { OnOk result (text.new ≡ text.old ++ flat_map (cache_line program.now) program.now.caches) }
{
    for c in program.caches.as_slice() {
        push_cache(text, program, c)?;
    }
    Ok(())
}

// Adds the line of a cache.
fn push_cache(text: &mut Bytes, program: &Program, c: &Cache) -> Result<(), AllocError>
    ensures added { OnOk result (text.new ≡ text.old ++ cache_line program.now c.now) }
{
    text.append(b"cache")?;
    push_named(text, &c.name)?;
    push_structure(text, program, c.key)?;
    push_structure(text, program, c.value)?;
    text.push(b'\n')
}
