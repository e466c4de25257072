// The tables of walks.
use crate::WalkRow;
use gt_types::List;

/// The walks of a program, each a list of rows of which the first is its note; the walks of roots that are not deletable; the
/// addresses of pointers in deletable roots; and the walks of the keys and values of caches.
#[derive(Debug, Drop)]
pub struct Tables {
    pub walks: List<List<WalkRow>>,
    pub roots: List<u32>,
    pub deletable: List<u32>,
    pub caches: List<CacheWalks>,
}

/// The walks of the keys and of the values of a cache.
#[derive(Clone, Copy, Debug, PartialEq, Eq)]
pub struct CacheWalks {
    pub key: u32,
    pub value: u32,
}
