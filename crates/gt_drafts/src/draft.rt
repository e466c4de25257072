use crate::{DeclaredType, Resolved};
use gt_items::{Name, RawOption};
use gt_types::{List, Word};

/// What all headers declare, with resolved types and with options as they are written. Structures, roots and caches stand
/// each in the order of the files and, in one file, of the text.
#[derive(Debug, Drop)]
pub struct Draft {
    pub structures: List<DraftStructure>,
    pub roots: List<DraftRoot>,
    pub caches: List<DraftCache>,
    /// The names of typedefs that mean a marked structure or a pointer to one, each once.
    pub words: List<DraftWord>,
    /// The constants that are defined, each once.
    pub constants: List<DraftConstant>,
}

/// A marked structure: the place of its file from 1, its tag, its options and its fields in order.
#[derive(Debug, Drop)]
pub struct DraftStructure {
    pub file: u32,
    pub is_union: bool,
    pub tag: Name,
    pub options: List<RawOption>,
    pub fields: List<DraftField>,
}

/// A field.
#[derive(Debug, Drop)]
pub struct DraftField {
    pub name: Name,
    pub options: List<RawOption>,
    pub ty: DeclaredType,
}

/// A marked global that is no cache.
#[derive(Debug, Drop)]
pub struct DraftRoot {
    pub file: u32,
    pub name: Name,
    pub options: List<RawOption>,
    pub ty: DeclaredType,
}

/// A marked global `hash_map<K, V> *`.
#[derive(Debug, Drop)]
pub struct DraftCache {
    pub file: u32,
    pub name: Name,
    pub options: List<RawOption>,
    pub key: Resolved,
    pub value: Resolved,
}

/// A constant and its value.
#[derive(Debug, Drop)]
pub struct DraftConstant {
    pub name: Word,
    pub value: i64,
}

/// A name of a typedef that means a marked structure, or, where `pointer` is true, a pointer to one.
#[derive(Debug, Drop)]
pub struct DraftWord {
    pub name: Word,
    pub pointer: bool,
    pub id: usize,
}
