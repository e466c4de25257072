// The program that a draft declares.
ghost use Rattle.std.specs.Prelude.{◌≡◌, map, IfOk};
ghost use Rattle.gt_markers.specs.Lookups.{IsLookupOf};
ghost use Rattle.gt_markers.specs.Sound.{IsSound};
ghost use Rattle.gt_declare.specs.Programs.{IsMadeOf, root_of, cache_of, word_of};

use crate::caches::cache_of;
use crate::chains::with_chains;
use crate::planes::planes_of;
use crate::roots::root_of;
use crate::structures::structures_without_chains;
use crate::words::word_of;
use gt_drafts::Draft;
use gt_layout::Plane;
use gt_markers::Lookup;
use gt_types::{Cache, List, Program, Root, Typedef};
use std::alloc::{AllocError, Global};

fn roots_of(
    alloc: Global,
    draft: &Draft,
    lookup: &Lookup,
    planes: &[Plane],
) -> Result<List<Root>, AllocError>
    requires sound { IsSound draft.now }
    requires lookup { IsLookupOf draft.now lookup.now }
    ensures made { IfOk result (λ made. made ≡ map (root_of draft.now planes.now) draft.now.roots) }
{
    let mut made = Vec::new(alloc);
    for root in draft.roots.as_slice() {
        made.push(root_of(alloc, draft, lookup, planes, root)?)?;
    }
    Ok(List::of(made))
}

fn caches_of(alloc: Global, draft: &Draft) -> Result<List<Cache>, AllocError>
    requires sound { IsSound draft.now }
    ensures made { IfOk result (λ made. made ≡ map cache_of draft.now.caches) }
{
    let mut made = Vec::new(alloc);
    for cache in draft.caches.as_slice() {
        made.push(cache_of(alloc, cache)?)?;
    }
    Ok(List::of(made))
}

fn words_of(alloc: Global, draft: &Draft) -> Result<List<Typedef>, AllocError>
    requires sound { IsSound draft.now }
    ensures made { IfOk result (λ made. made ≡ map word_of draft.now.words) }
{
    let mut made = Vec::new(alloc);
    for word in draft.words.as_slice() {
        made.push(word_of(alloc, word)?)?;
    }
    Ok(List::of(made))
}

/// The program that a draft declares, with faults or without: a type that is a fault counts as bytes that are never scanned, and a chain
/// that leads nowhere is left out. Its time is linear in the draft, but for the options of one marker, which are searched by name. It fails only
/// if memory runs out.
pub fn declare(alloc: Global, draft: &Draft, lookup: &Lookup) -> Result<Program, AllocError>
    requires sound { IsSound draft.now }
    requires lookup { IsLookupOf draft.now lookup.now }
    ensures made { IfOk result (IsMadeOf draft.now) }
{
    let planes = planes_of(alloc, draft, lookup)?;
    let structures = structures_without_chains(alloc, draft, lookup, &planes)?;
    Ok(Program {
        structures: with_chains(alloc, draft.structures.as_slice(), structures)?,
        roots: roots_of(alloc, draft, lookup, &planes)?,
        caches: caches_of(alloc, draft)?,
        words: words_of(alloc, draft)?,
    })
}
