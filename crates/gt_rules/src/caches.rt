// The faults of caches.
ghost use Rattle.std.specs.Bool.{Decides};
ghost use Rattle.gt_types.specs.Paths.{MayStandBeside};
ghost use Rattle.gt_markers.specs.Sound.{IsSound};
ghost use Rattle.gt_typing.specs.SmallTypes.{HasSmallId};
ghost use Rattle.gt_declare.specs.Programs.{key_type};
ghost use Rattle.gt_rules.specs.Faults.{StandsAlone};
ghost use Rattle.gt_rules.specs.Inner.{IsDeclaredInner};
ghost use Rattle.gt_rules.specs.Parts.{IsIndexFor, IsFirstWith, CacheFault, CachesFaults};

use crate::known::Known;
use gt_declare::key_type;
use gt_drafts::{DraftCache, Resolved, with_fault};
use gt_markers::CACHE_SHAPE;
use gt_paths::may_stand_beside;
use gt_types::{Fault, TypeId};

// Whether a structure may stand alone.
fn may_stand(known: Known, id: TypeId) -> bool
    requires index { IsIndexFor known.draft.now known.program.now known.index.now }
    ensures decides { Decides result (MayStandBeside (IsDeclaredInner known.entry.draft.now) known.entry.program.now id) }
{
    may_stand_beside(known.program, known.index, id)
}

// Whether a key or a value points to a structure that may stand alone.
fn stands_alone(known: Known, resolved: &Resolved) -> bool
    requires index { IsIndexFor known.draft.now known.program.now known.index.now }
    requires small { HasSmallId resolved.now.base }
    ensures decides { Decides result (StandsAlone known.entry.draft.now known.entry.program.now (key_type resolved.now)) }
{
    match key_type(resolved) {
        None => false,
        Some(id) => may_stand(known, id),
    }
}

// Whether a key and a value point to structures that may stand alone.
fn stand_alone(known: Known, cache: &DraftCache) -> bool
    requires index { IsIndexFor known.draft.now known.program.now known.index.now }
    requires key { HasSmallId cache.now.key.base }
    requires value { HasSmallId cache.now.value.base }
    ensures decides { Decides result (StandsAlone known.entry.draft.now known.entry.program.now (key_type cache.now.key) × StandsAlone known.entry.draft.now known.entry.program.now (key_type cache.now.value)) }
{
    if !stands_alone(known, &cache.key) {
        return false;
    }
    stands_alone(known, &cache.value)
}

// The earliest fault with that of a cache.
fn of_cache(earliest: Option<Fault>, known: Known, cache: &DraftCache) -> Option<Fault>
    requires index { IsIndexFor known.draft.now known.program.now known.index.now }
    requires key { HasSmallId cache.now.key.base }
    requires value { HasSmallId cache.now.value.base }
    ensures first { IsFirstWith earliest (CacheFault known.entry.draft.now known.entry.program.now cache.now) result }
{
    let stand = stand_alone(known, cache);
    with_fault(earliest, !stand, CACHE_SHAPE, cache.file, cache.name.at)
}

/// The earliest fault with those of all caches.
pub fn of_caches(earliest: Option<Fault>, known: Known) -> Option<Fault>
    requires sound { IsSound known.draft.now }
    requires index { IsIndexFor known.draft.now known.program.now known.index.now }
    ensures first { IsFirstWith earliest (CachesFaults known.entry.draft.now known.entry.program.now) result }
{
    let mut earliest = earliest;
    for cache in known.draft.caches.as_slice() {
        earliest = of_cache(earliest, known, cache);
    }
    earliest
}
