// The pointers of deletable roots.
ghost use Rattle.std.specs.Prelude.{◌≡◌, ◌<◌, ◌+◌, ◌*◌, ◌^◌, ◌++◌, length, slice_get, Some, IfOk};
ghost use Rattle.gt_types.specs.Settled.{Settled};
ghost use Rattle.gt_types.specs.declared.program.Root.{Root};
ghost use Rattle.gt_layout.specs.Planes.{IsLaidOut};
ghost use Rattle.gt_layout.specs.Excess.{IsWithin};
ghost use Rattle.gt_layout.specs.declared.planes.FieldSpot.{FieldSpot};
ghost use Rattle.gt_space.specs.Range.{statics_start};
ghost use Rattle.gt_edges.specs.Deletable.{deletable_words, words_from};
ghost use Rattle.gt_tables.specs.RootWords.{words_of};

use crate::sizes::{root_address, size_of};
use gt_layout::Layouts;
use gt_types::Program;
use std::alloc::{AllocError, Global};

// Adds so many addresses, each eight bytes after the one before it.
fn add_words(words: &mut Vec<u32>, address: u32, n: u32) -> Result<(), AllocError>
    requires few { address + 8 * n < 2 ^ 32 }
    ensures added { IfOk result (λ _. words.new.items ≡ words.old.items ++ words_from address n) }
{
    for i in 0..n {
        words.push(address + 8 * i)?;
    }
    Ok(())
}

// Adds the addresses of the pointers of the root at a place, where it is deletable.
fn add_deletable(
    words: &mut Vec<u32>,
    program: &Program,
    layouts: &Layouts,
    start: u32,
    place: usize,
) -> Result<(), AllocError>
    requires settled { Settled program.now }
    requires laid { IsLaidOut program.now layouts.now }
    requires within { IsWithin program.now layouts.now }
    requires start { start ≡ statics_start layouts.now.statics.size }
    requires there { place < length program.now.roots }
    ensures added { IfOk result (λ _. (r : Root) → (s : FieldSpot) → slice_get program.now.roots place ≡ Some r → slice_get layouts.now.statics.fields place ≡ Some s → words.new.items ≡ words.old.items ++ words_of layouts.now.structures start r s) }
{
    let root = &program.roots.as_slice()[place];
    if !root.deletable {
        return Ok(());
    }
    let address = root_address(start, layouts.statics.fields.as_slice(), place);
    add_words(words, address, size_of(&root.ty, layouts) / 8)
}

// The addresses of the pointers of deletable roots, root by root, where the static record begins at an address.
pub fn deletable_words(
    alloc: Global,
    program: &Program,
    layouts: &Layouts,
    start: u32,
) -> Result<Vec<u32>, AllocError>
    requires settled { Settled program.now }
    requires laid { IsLaidOut program.now layouts.now }
    requires within { IsWithin program.now layouts.now }
    requires start { start ≡ statics_start layouts.now.statics.size }
    ensures words { IfOk result (λ words. words.items ≡ deletable_words layouts.now.structures start program.now.roots layouts.now.statics.fields) }
{
    let mut words = Vec::new(alloc);
    for place in 0..program.roots.len() {
        add_deletable(&mut words, program, layouts, start, place)?;
    }
    Ok(words)
}
