// The canonical text and the fingerprint.
ghost use Rattle.std.specs.Prelude.{◌≡◌, ◌++◌, IfOk, OnOk};
ghost use Rattle.std.specs.List.{flat_map};
ghost use Rattle.sha2.specs.Sha256.{sha256};
ghost use Rattle.gt_canon.specs.Canon.{cache_line, canon_of, root_line, structure_lines};

use crate::structures::{push_cache, push_root, push_structure_lines};
use gt_types::{Bytes, Program};
use sha2::{Digest, Sha256};
use std::alloc::{AllocError, Global};

/// The canonical text of a program: a line for each structure, field, chain, root and cache, in the order of declaration. Its
/// only error is out of memory.
pub fn canon(alloc: Global, program: &Program) -> Result<Bytes, AllocError>
    ensures text { IfOk result (λ bytes. bytes ≡ canon_of program.now) }
{
    let mut text = Bytes::of(alloc, b"gty 1\n")?;
    push_structures(alloc, &mut text, program)?;
    push_roots(alloc, &mut text, program)?;
    push_caches(&mut text, program)?;
    Ok(text)
}

/// The SHA-256 (FIPS 180-4) of the canonical text. Its only error is out of memory.
pub fn fingerprint(alloc: Global, program: &Program) -> Result<[u8; 32], AllocError>
    ensures digest { IfOk result (λ digest. digest ≡ sha256 (canon_of program.now)) }
{
    let text = canon(alloc, program)?;
    Ok(Sha256::digest(text.as_slice()))
}

fn push_structures(alloc: Global, text: &mut Bytes, program: &Program) -> Result<(), AllocError>
    ensures added { OnOk result (text.new ≡ text.old ++ flat_map (structure_lines program.now) program.now.structures) }
{
    for s in program.structures.as_slice() {
        push_structure_lines(alloc, text, program, s)?;
    }
    Ok(())
}

fn push_roots(alloc: Global, text: &mut Bytes, program: &Program) -> Result<(), AllocError>
    ensures added { OnOk result (text.new ≡ text.old ++ flat_map (root_line program.now) program.now.roots) }
{
    for r in program.roots.as_slice() {
        push_root(alloc, text, program, r)?;
    }
    Ok(())
}

fn push_caches(text: &mut Bytes, program: &Program) -> Result<(), AllocError>
    ensures added { OnOk result (text.new ≡ text.old ++ flat_map (cache_line program.now) program.now.caches) }
{
    for c in program.caches.as_slice() {
        push_cache(text, program, c)?;
    }
    Ok(())
}
