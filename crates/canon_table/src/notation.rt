// A program, as it is written in the table: a line for each structure, field, chain, root and cache.
use crate::parts::{optional, ty};
use crate::words::{Refusal, Words, both};
use gt_types::{Active, Cache, Chain, ChainKind, Field, List, Program, Root, Structure, TypeId};
use std::alloc::Global;

// What was read so far.
#[derive(Drop)]
struct Draft {
    structures: Vec<Structure>,
    roots: List<Root>,
    caches: List<Cache>,
}

/// The program of the lines.
pub fn program(alloc: Global, lines: &[String]) -> Result<Program, Refusal> {
    let mut draft = Draft {
        structures: Vec::new(alloc),
        roots: List::new(alloc),
        caches: List::new(alloc),
    };
    for line in lines {
        draft.add(alloc, line.as_str())?;
    }
    Ok(Program {
        structures: List::of(draft.structures),
        roots: draft.roots,
        caches: draft.caches,
        words: List::new(alloc),
    })
}

impl Draft {
    fn add(&mut self, alloc: Global, line: &str) -> Result<(), Refusal> {
        let mut words = Words::of(alloc, line)?;
        let keyword = words.next()?;
        self.add_by(alloc, keyword.as_str(), &mut words)?;
        if words.is_empty() {
            Ok(())
        } else {
            Err(Refusal::Malformed)
        }
    }

    // Adds what a line says after its first word.
    fn add_by(&mut self, alloc: Global, keyword: &str, words: &mut Words) -> Result<(), Refusal> {
        match keyword {
            "struct" => self.add_structure(alloc, words, false),
            "union" => self.add_structure(alloc, words, true),
            "field" => self.add_field(alloc, words),
            "chain" => self.add_chain(alloc, words),
            "root" => self.add_root(alloc, words),
            "cache" => self.add_cache(words),
            _ => Err(Refusal::Malformed),
        }
    }

    fn add_structure(
        &mut self,
        alloc: Global,
        words: &mut Words,
        is_union: bool,
    ) -> Result<(), Refusal> {
        Ok(self.structures.push(structure(alloc, words, is_union)?)?)
    }

    fn add_root(&mut self, alloc: Global, words: &mut Words) -> Result<(), Refusal> {
        Ok(self.roots.push(root(alloc, words)?)?)
    }

    fn add_cache(&mut self, words: &mut Words) -> Result<(), Refusal> {
        Ok(self.caches.push(cache(words)?)?)
    }

    fn add_field(&mut self, alloc: Global, words: &mut Words) -> Result<(), Refusal> {
        let field = field(alloc, words)?;
        let fields = match self.structures.last_mut() {
            Some(s) => Some(&mut s.fields),
            None => None,
        };
        add_to(fields, field)
    }

    fn add_chain(&mut self, alloc: Global, words: &mut Words) -> Result<(), Refusal> {
        let chain = chain(alloc, words)?;
        match self.structures.last_mut() {
            Some(s) => Ok(s.chains.push(chain)?),
            None => Err(Refusal::Malformed),
        }
    }
}

// Adds an item to the list of the last structure, if there is one.
fn add_to<X: Drop>(list: Option<&mut List<X>>, item: X) -> Result<(), Refusal> {
    match list {
        Some(list) => Ok(list.push(item)?),
        None => Err(Refusal::Malformed),
    }
}

fn structure(alloc: Global, words: &mut Words, is_union: bool) -> Result<Structure, Refusal> {
    Ok(Structure {
        name: words.next()?,
        is_union,
        desc: optional(alloc, words)?,
        fields: List::new(alloc),
        chains: List::new(alloc),
    })
}

fn field(alloc: Global, words: &mut Words) -> Result<Field, Refusal> {
    let name = words.next()?;
    let ty = ty(alloc, words)?;
    let (ty, active) = both(ty, active(words))?;
    Ok(Field { name, ty, active })
}

fn active(words: &mut Words) -> Result<Active, Refusal> {
    let keyword = words.next()?;
    active_by(keyword.as_str(), words)
}

fn active_by(keyword: &str, words: &mut Words) -> Result<Active, Refusal> {
    match keyword {
        "always" => Ok(Active::Always),
        "tag" => Ok(Active::Tag(words.integer()?)),
        "other" => Ok(Active::Other),
        "never" => Ok(Active::Never),
        _ => Err(Refusal::Malformed),
    }
}

fn chain(alloc: Global, words: &mut Words) -> Result<Chain, Refusal> {
    let kind = match words.next()?.as_str() {
        "next" => ChainKind::Next,
        "prev" => ChainKind::Prev,
        "circular" => ChainKind::Circular,
        _ => return Err(Refusal::Malformed),
    };
    let count = words.number()?;
    let mut path = List::new(alloc);
    for _ in 0..count {
        path.push(words.number()?)?;
    }
    Ok(Chain { kind, path })
}

fn root(alloc: Global, words: &mut Words) -> Result<Root, Refusal> {
    let name = words.next()?;
    let ty = ty(alloc, words)?;
    let (ty, deletable) = both(ty, words.truth())?;
    Ok(Root {
        name,
        ty,
        deletable,
    })
}

fn cache(words: &mut Words) -> Result<Cache, Refusal> {
    Ok(Cache {
        name: words.next()?,
        key: TypeId(words.number()?),
        value: TypeId(words.number()?),
    })
}
