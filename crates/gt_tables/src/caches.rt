// The walks that caches name.
ghost use Rattle.std.specs.Prelude.{◌≡◌, map, IfOk};
ghost use Rattle.gt_edges.specs.Tables.{cache_walks};

use gt_types::{Cache, Program};
use gt_walk::CacheWalks;
use std::alloc::{AllocError, Global};

fn walks_of(cache: &Cache) -> CacheWalks
    ensures { result ≡ cache_walks cache.now }
{
    CacheWalks {
        key: cache.key.0,
        value: cache.value.0,
    }
}

// The walks of the keys and the values of each cache.
pub fn cache_walks(alloc: Global, program: &Program) -> Result<Vec<CacheWalks>, AllocError>
    ensures { IfOk result (λ walks. walks.items ≡ map cache_walks program.now.caches) }
{
    let mut walks = Vec::new(alloc);
    for cache in program.caches.as_slice() {
        walks.push(walks_of(cache))?;
    }
    Ok(walks)
}
