// The plain data of a heap: objects that name one another, the values of the roots, and the pairs of caches.
use gt_value::{BlockKind, Value};

/// An object: a block under a name, what it holds, how many elements it has, how many have room at its end, and its value.
#[derive(Drop)]
pub struct Object {
    pub id: u64,
    pub kind: BlockKind,
    pub count: u32,
    pub capacity: u32,
    pub value: Value,
}

/// A pair of a cache, by the names of its key and its value.
#[derive(Drop)]
pub struct Pair {
    pub key: u64,
    pub value: u64,
}

/// The objects in order, the values of the roots, and the pairs of each cache.
#[derive(Drop)]
pub struct Graph {
    pub objects: Vec<Object>,
    pub statics: Vec<Value>,
    pub caches: Vec<Vec<Pair>>,
}
