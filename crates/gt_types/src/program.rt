use crate::types::copy_of;
use crate::{Copied, Expr, List, Ty, TypeId, Word};
use std::alloc::{AllocError, Global};

/// When a field is a part of the value: always, as a union's member of this tag, as its default, or never.
#[derive(Clone, Copy, Debug, PartialEq, Eq)]
pub enum Active {
    Always,
    Tag(i64),
    Other,
    Never,
}

/// A field of a structure.
#[derive(Debug, Drop)]
pub struct Field {
    pub name: Word,
    pub ty: Ty,
    pub active: Active,
}

/// Which chain option it is.
#[derive(Clone, Copy, Debug, PartialEq, Eq)]
pub enum ChainKind {
    Next,
    Prev,
    Circular,
}

/// A chain option: the places of the fields on its path.
#[derive(Debug, PartialEq, Eq, Drop)]
pub struct Chain {
    pub kind: ChainKind,
    pub path: List<u32>,
}

/// A marked struct or union.
#[derive(Debug, Drop)]
pub struct Structure {
    pub name: Word,
    pub is_union: bool,
    pub desc: Option<Expr>,
    pub fields: List<Field>,
    pub chains: List<Chain>,
}

/// A marked global that is no cache.
#[derive(Debug, Drop)]
pub struct Root {
    pub name: Word,
    pub ty: Ty,
    pub deletable: bool,
}

/// A marked global that is a cache, from single objects of `key` to single objects of `value`.
#[derive(Debug, PartialEq, Eq, Drop)]
pub struct Cache {
    pub name: Word,
    pub key: TypeId,
    pub value: TypeId,
}

/// A typedef name that means a structure, or, where `pointer` is true, a pointer to one.
#[derive(Debug, PartialEq, Eq, Drop)]
pub struct Typedef {
    pub name: Word,
    pub pointer: bool,
    pub id: TypeId,
}

/// What the headers declare, each list in the order of declaration.
#[derive(Debug, Drop)]
pub struct Program {
    pub structures: List<Structure>,
    pub roots: List<Root>,
    pub caches: List<Cache>,
    pub words: List<Typedef>,
}

impl Copied for Field {
    fn copy(&self, alloc: Global) -> Result<Field, AllocError> {
        Ok(Field {
            name: self.name.copy(alloc)?,
            ty: self.ty.copy(alloc)?,
            active: self.active,
        })
    }
}

impl Copied for Chain {
    fn copy(&self, alloc: Global) -> Result<Chain, AllocError> {
        Ok(Chain {
            kind: self.kind,
            path: self.path.copy(alloc)?,
        })
    }
}

impl Copied for Structure {
    fn copy(&self, alloc: Global) -> Result<Structure, AllocError> {
        Ok(Structure {
            name: self.name.copy(alloc)?,
            is_union: self.is_union,
            desc: copy_of(alloc, &self.desc)?,
            fields: self.fields.copy(alloc)?,
            chains: self.chains.copy(alloc)?,
        })
    }
}

impl Copied for Root {
    fn copy(&self, alloc: Global) -> Result<Root, AllocError> {
        Ok(Root {
            name: self.name.copy(alloc)?,
            ty: self.ty.copy(alloc)?,
            deletable: self.deletable,
        })
    }
}

impl Copied for Cache {
    fn copy(&self, alloc: Global) -> Result<Cache, AllocError> {
        Ok(Cache {
            name: self.name.copy(alloc)?,
            key: self.key,
            value: self.value,
        })
    }
}

impl Copied for Typedef {
    fn copy(&self, alloc: Global) -> Result<Typedef, AllocError> {
        Ok(Typedef {
            name: self.name.copy(alloc)?,
            pointer: self.pointer,
            id: self.id,
        })
    }
}

impl Copied for Program {
    fn copy(&self, alloc: Global) -> Result<Program, AllocError> {
        Ok(Program {
            structures: self.structures.copy(alloc)?,
            roots: self.roots.copy(alloc)?,
            caches: self.caches.copy(alloc)?,
            words: self.words.copy(alloc)?,
        })
    }
}
