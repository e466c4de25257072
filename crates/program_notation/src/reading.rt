// The lines of a program.
use crate::expressions::{Names, expression};
use crate::line::Line;
use crate::refusal::Refusal;
use crate::types::{desc, ty};
use gt_types::{
    Active, Cache, Chain, ChainKind, Expr, Field, List, Program, Root, Structure, Ty, TypeId,
    Typedef, Word,
};
use std::alloc::{AllocError, Global};

// A chain option as it is written: the structure that it stands on, and the names on its path.
#[derive(Drop)]
struct NamedChain {
    owner: usize,
    kind: ChainKind,
    steps: List<Word>,
}

// What was read so far.
#[derive(Drop)]
struct Draft {
    structures: Vec<Structure>,
    chains: Vec<NamedChain>,
    roots: List<Root>,
    caches: List<Cache>,
    words: List<Typedef>,
}

/// The program of the lines, or why they are none.
pub fn program(alloc: Global, lines: &[String]) -> Result<Program, Refusal> {
    let names = names(alloc, lines)?;
    let mut draft = Draft {
        structures: Vec::new(alloc),
        chains: Vec::new(alloc),
        roots: List::new(alloc),
        caches: List::new(alloc),
        words: List::new(alloc),
    };
    for text in lines {
        draft.add(alloc, &names, text.as_str())?;
    }
    draft.finish(alloc)
}

/// The expression of a text, in which a root of any name is the one at place 0.
pub fn expression_of(alloc: Global, text: &str) -> Result<Expr, Refusal> {
    let mut line = Line::of(alloc, text)?;
    let expression = expression(alloc, &no_names(alloc), &mut line)?;
    whole(expression, &line)
}

/// The type of a text, in which a structure of any name is the one at place 0.
pub fn type_of(alloc: Global, text: &str) -> Result<Ty, Refusal> {
    let mut line = Line::of(alloc, text)?;
    let ty = ty(alloc, &no_names(alloc), &mut line)?;
    whole(ty, &line)
}

// What was read of a line, where it ends there.
fn whole<T: Drop>(part: T, line: &Line) -> Result<T, Refusal> {
    line.end()?;
    Ok(part)
}

fn no_names(alloc: Global) -> Names {
    Names {
        structures: Vec::new(alloc),
        roots: Vec::new(alloc),
    }
}

// The names of all structures and roots, which may be used before they are declared.
fn names(alloc: Global, lines: &[String]) -> Result<Names, Refusal> {
    let mut names = Names {
        structures: Vec::new(alloc),
        roots: Vec::new(alloc),
    };
    for text in lines {
        add_name(alloc, text.as_str(), &mut names)?;
    }
    Ok(names)
}

// Adds the name of the structure or root that a line declares.
fn add_name(alloc: Global, text: &str, names: &mut Names) -> Result<(), Refusal> {
    let mut line = Line::of(alloc, text)?;
    match line.next()?.as_str() {
        "struct" | "union" => add_next(&mut line, &mut names.structures),
        "root" => add_next(&mut line, &mut names.roots),
        _ => Ok(()),
    }
}

fn add_next(line: &mut Line, words: &mut Vec<Word>) -> Result<(), Refusal> {
    Ok(words.push(line.next()?)?)
}

impl Draft {
    fn add(&mut self, alloc: Global, names: &Names, text: &str) -> Result<(), Refusal> {
        let mut line = Line::of(alloc, text)?;
        let keyword = line.next()?;
        self.add_by(alloc, names, keyword.as_str(), &mut line)?;
        line.end()
    }

    // Adds what a line says after its first word.
    fn add_by(
        &mut self,
        alloc: Global,
        names: &Names,
        keyword: &str,
        line: &mut Line,
    ) -> Result<(), Refusal> {
        match keyword {
            "struct" => self.add_structure(alloc, names, line, false),
            "union" => self.add_structure(alloc, names, line, true),
            "field" => self.add_field(alloc, names, line),
            "chain" => self.add_chain(alloc, line),
            "root" => self.add_root(alloc, names, line),
            "cache" => self.add_cache(names, line),
            "word" => self.add_word(names, line),
            _ => Err(Refusal::UnknownWord),
        }
    }

    fn add_structure(
        &mut self,
        alloc: Global,
        names: &Names,
        line: &mut Line,
        is_union: bool,
    ) -> Result<(), Refusal> {
        let name = line.next()?;
        let desc = desc(alloc, names, line)?;
        self.structures.push(Structure {
            name,
            is_union,
            desc,
            fields: List::new(alloc),
            chains: List::new(alloc),
        })?;
        Ok(())
    }

    fn add_field(&mut self, alloc: Global, names: &Names, line: &mut Line) -> Result<(), Refusal> {
        let field = field(alloc, names, line)?;
        let fields = match self.structures.last_mut() {
            None => None,
            Some(s) => Some(&mut s.fields),
        };
        add_to(fields, field)
    }

    fn add_chain(&mut self, alloc: Global, line: &mut Line) -> Result<(), Refusal> {
        let kind = match line.next()?.as_str() {
            "next" => ChainKind::Next,
            "prev" => ChainKind::Prev,
            "circular" => ChainKind::Circular,
            _ => return Err(Refusal::UnknownWord),
        };
        let steps = line.steps(alloc)?;
        if self.structures.is_empty() {
            return Err(Refusal::NoStructure);
        }
        self.chains.push(NamedChain {
            owner: self.structures.len() - 1,
            kind,
            steps,
        })?;
        Ok(())
    }

    fn add_root(&mut self, alloc: Global, names: &Names, line: &mut Line) -> Result<(), Refusal> {
        let name = line.next()?;
        let ty = ty(alloc, names, line)?;
        let deletable = line.takes("deletable");
        Ok(
            self.roots.push(Root {
                name,
                ty,
                deletable,
            })?,
        )
    }

    fn add_cache(&mut self, names: &Names, line: &mut Line) -> Result<(), Refusal> {
        let name = line.next()?;
        let key = names.structure(line)?;
        let value = names.structure(line)?;
        Ok(self.caches.push(Cache { name, key, value })?)
    }

    fn add_word(&mut self, names: &Names, line: &mut Line) -> Result<(), Refusal> {
        let name = line.next()?;
        let pointer = match line.next()?.as_str() {
            "node" => false,
            "ptr" => true,
            _ => return Err(Refusal::UnknownWord),
        };
        let id = names.structure(line)?;
        Ok(self.words.push(Typedef { name, pointer, id })?)
    }

    // The program, where the paths of chains are places of fields.
    fn finish(self, alloc: Global) -> Result<Program, Refusal> {
        let Draft {
            mut structures,
            chains,
            roots,
            caches,
            words,
        } = self;
        for chain in &chains {
            let path = places(alloc, &structures, chain)?;
            let kind = chain.kind;
            if let Some(s) = structures.get_mut(chain.owner) {
                s.chains.push(Chain { kind, path })?;
            }
        }
        Ok(Program {
            structures: List::of(structures),
            roots,
            caches,
            words,
        })
    }
}

fn field(alloc: Global, names: &Names, line: &mut Line) -> Result<Field, Refusal> {
    let name = line.next()?;
    let ty = ty(alloc, names, line)?;
    let (ty, active) = with_active(ty, line)?;
    Ok(Field { name, ty, active })
}

// The same, and when the field of this type is a part of the value.
fn with_active<T: Drop>(ty: T, line: &mut Line) -> Result<(T, Active), Refusal> {
    let active = active(line)?;
    Ok((ty, active))
}

// Adds an item to the list of the last structure, if there is one.
fn add_to<X: Drop>(list: Option<&mut List<X>>, item: X) -> Result<(), Refusal> {
    match list {
        None => Err(Refusal::NoStructure),
        Some(list) => Ok(list.push(item)?),
    }
}

// When a field is a part of the value.
fn active(line: &mut Line) -> Result<Active, Refusal> {
    match line.next()?.as_str() {
        "always" => Ok(Active::Always),
        "tag" => Ok(Active::Tag(line.number()?)),
        "default" => Ok(Active::Other),
        "never" => Ok(Active::Never),
        _ => Err(Refusal::UnknownWord),
    }
}

// The places of the fields on a chain's path.
fn places(
    alloc: Global,
    structures: &[Structure],
    chain: &NamedChain,
) -> Result<List<u32>, Refusal> {
    let mut path = List::new(alloc);
    let mut owner = structures.get(chain.owner);
    for step in chain.steps.as_slice() {
        let fields = match owner {
            Some(s) => s.fields.as_slice(),
            None => &[],
        };
        let place = place(fields, step);
        match u32::try_from(place) {
            Ok(place) => path.push(place)?,
            Err(_) => return Err(Refusal::BadNumber),
        }
        owner = held(structures, fields, place);
    }
    Ok(path)
}

// The place of the first field of this name, or the place after the last field.
fn place(fields: &[Field], name: &Word) -> usize {
    for (place, f) in fields.iter().enumerate() {
        if f.name == *name {
            return place;
        }
    }
    fields.len()
}

// The structure that is the field at a place.
fn held<'a>(structures: &'a [Structure], fields: &[Field], place: usize) -> Option<&'a Structure> {
    match fields.get(place) {
        Some(f) => match &f.ty {
            Ty::Node { id, .. } => structures.get(id.0 as usize),
            _ => None,
        },
        None => None,
    }
}
