// The tables of a program.
ghost use Rattle.std.specs.Prelude.{◌≡◌, ◌≤◌, IfOk};
ghost use Rattle.gt_space.specs.Range.{statics_start};
ghost use Rattle.gt_types.specs.Settled.{Settled};
ghost use Rattle.gt_layout.specs.Planes.{IsLaidOut};
ghost use Rattle.gt_layout.specs.Excess.{IsWithin};
ghost use Rattle.gt_walk.specs.Nested.{IsNested};
ghost use Rattle.gt_edges.specs.Tables.{AreNumbered, AreTables};
ghost use Rattle.gt_edges.specs.Edges.{GivesElements, GivesRoots};
ghost use Rattle.gt_edges.specs.Walks.{AreWalksOf};
ghost use Rattle.gt_edges.specs.Notes.{AreBlockWalks};
ghost use Rattle.gt_edges.specs.Deletable.{deletable_words};
ghost use Rattle.gt_tables.specs.Sharing.{ArePartsShared};

use crate::blocks::block_walks;
use crate::caches::cache_walks;
use crate::deletable::deletable_words;
use crate::naming::{inner_structures, readers};
use crate::parts::Parts;
use crate::roots::root_walks;
use crate::sources::Source;
use gt_layout::Layouts;
use gt_space::{HEAP_START, PAGE_BYTES};
use gt_types::{List, Program};
use gt_walk::Tables;
use std::alloc::{AllocError, Global};

// The address of a static record of so many bytes.
fn statics_start(size: u32) -> u32
    requires { size ≤ 1048576 }
    ensures { result ≡ statics_start size }
{
    let pages = (size as u64 + (PAGE_BYTES - 1)) / PAGE_BYTES;
    (HEAP_START - PAGE_BYTES * pages) as u32
}

/// The walker tables of a program. With n structures, walk i is structure i standing alone, walk n + i a pointer to it, walk 2n a string
/// pointer, and walk 2n + 1 has no pointers: it serves characters and bytes that are never scanned, with count 0. The walks of parts and
/// roots follow. It fails only if memory runs out.
pub fn build(alloc: Global, program: &Program, layouts: &Layouts) -> Result<Tables, AllocError>
    requires settled { Settled program.now }
    requires laid { IsLaidOut program.now layouts.now }
    requires within { IsWithin program.now layouts.now }
    ensures tables { IfOk result (AreTables program.now layouts.now) }
    ensures shared { IfOk result (ArePartsShared program.now layouts.now) }
{
    make(alloc, program, layouts)
}

// The tables, of which each part is said apart.
fn make(alloc: Global, program: &Program, layouts: &Layouts) -> Result<Tables, AllocError>
    requires settled { Settled program.now }
    requires laid { IsLaidOut program.now layouts.now }
    requires within { IsWithin program.now layouts.now }
    ensures nested { IfOk result IsNested }
    ensures numbered { IfOk result (AreNumbered program.now) }
    ensures walks { IfOk result (AreWalksOf program.now layouts.now) }
    ensures blocks { IfOk result (AreBlockWalks program.now layouts.now.structures) }
    ensures elements { IfOk result (GivesElements program.now layouts.now) }
    ensures roots { IfOk result (GivesRoots program.now layouts.now) }
    ensures deletable { IfOk result (λ tables. tables.deletable ≡ deletable_words layouts.now.structures (statics_start layouts.now.statics.size) program.now.roots layouts.now.statics.fields) }
    ensures shared { IfOk result (ArePartsShared program.now layouts.now) }
{
    let inner = List::of(inner_structures(alloc, program)?);
    let readers = List::of(readers(alloc, program)?);
    let start = statics_start(layouts.statics.size);
    let source = Source {
        alloc,
        program,
        layouts,
        inner: &inner,
        readers: &readers,
        structures: program.structures.len() as u32,
        start,
    };
    let mut parts = Parts::new(alloc);
    let mut walks = block_walks(&source, &mut parts)?;
    let roots = root_walks(&source, &mut parts)?;
    walks.append(&mut parts.walks)?;
    Ok(Tables {
        walks: List::of(walks),
        roots: List::of(roots),
        deletable: List::of(deletable_words(alloc, program, layouts, start)?),
        caches: List::of(cache_walks(alloc, program)?),
    })
}
