// Caches.
ghost use Rattle.std.specs.Prelude.{◌≡◌, IfOk};
ghost use Rattle.gt_typing.specs.SmallTypes.{HasSmallId};
ghost use Rattle.gt_declare.specs.Programs.{pointed, key_type, or_first, cache_of};

use gt_drafts::{BaseType, DraftCache, Resolved};
use gt_items::Stars;
use gt_types::{Cache, Copied, TypeId};
use gt_typing::node;
use std::alloc::{AllocError, Global};

fn pointer_target(base: &BaseType, stars: Stars) -> Option<TypeId>
    requires small { HasSmallId base.now }
    ensures { result ≡ pointed base.now stars }
{
    match (base, stars) {
        (BaseType::Structure(id), Stars::One) => Some(node(*id)),
        _ => None,
    }
}

/// The structure that a key or a value points to.
pub fn key_type(resolved: &Resolved) -> Option<TypeId>
    requires small { HasSmallId resolved.now.base }
    ensures { result ≡ key_type resolved.now }
{
    pointer_target(&resolved.base, resolved.stars)
}

// A key or a value that points to no structure is a fault, and counts as the first structure.
fn or_first(structure: Option<TypeId>) -> TypeId
    ensures { result ≡ or_first structure }
{
    match structure {
        Some(structure) => structure,
        None => TypeId(0),
    }
}

/// A cache, as the program has it. It fails only if memory runs out.
pub fn cache_of(alloc: Global, cache: &DraftCache) -> Result<Cache, AllocError>
    requires key { HasSmallId cache.now.key.base }
    requires value { HasSmallId cache.now.value.base }
    ensures made { IfOk result (λ made. made ≡ cache_of cache.now) }
{
    Ok(Cache {
        name: cache.name.word.copy(alloc)?,
        key: or_first(key_type(&cache.key)),
        value: or_first(key_type(&cache.value)),
    })
}
