// What walks are made of, and where in structures they are made.
ghost use Rattle.std.specs.Prelude.{◌≡◌, ◌+◌, ◌*◌, ◌<◌, ◌^◌, Some, None, IfSome, slice_get};
ghost use Rattle.std.specs.Bool.{Decides};
ghost use Rattle.gt_types.specs.Paths.{MayStand};
ghost use Rattle.gt_tables.specs.Building.{IsSource, first_of, part_of, part_at, depends, outermost_if, around_of, flag_at};
ghost use Rattle.gt_edges.specs.Walks.{inside, outside, first_of as first_of_node};

use gt_layout::Layouts;
use gt_types::{List, Program, TypeId};
use std::alloc::Global;

// A program with its layouts; of each structure whether it names the one that contains it, and whether it reads the outermost; how many
// structures there are; and the address of the static record.
#[derive(Clone, Copy)]
pub struct Source<'a> {
    pub alloc: Global,
    pub program: &'a Program,
    pub layouts: &'a Layouts,
    pub inner: &'a List<bool>,
    pub readers: &'a List<bool>,
    pub structures: u32,
    pub start: u32,
}

// The structures around: the innermost, the one that contains it, and the outermost.
#[derive(Clone, Copy)]
pub struct Around {
    pub here: Option<TypeId>,
    pub outer: Option<TypeId>,
    pub outermost: Option<TypeId>,
}

// Where a structure lies by value: in which structure, and in which field of it.
#[derive(Clone, Copy, PartialEq, Eq, PartialOrd, Ord)]
pub struct Site {
    pub container: u32,
    pub field: u32,
}

// Where a type lies: inside which structures, and in which field; in none where it is a root's.
#[derive(Clone, Copy)]
pub struct Lies {
    pub around: Around,
    pub site: Option<Site>,
}

// A structure by value. Where it lies is told exactly where its rows depend on that, and so is the outermost structure.
#[derive(Clone, Copy, PartialEq, Eq, PartialOrd, Ord)]
pub struct Part {
    pub node: u32,
    pub site: Option<Site>,
    pub outermost: Option<u32>,
}

impl Around {
    // Outside every structure.
    pub fn outside() -> Around
        ensures { around_of result ≡ outside }
    {
        Around {
            here: None,
            outer: None,
            outermost: None,
        }
    }

    // Inside a structure.
    pub fn enter(self, node: TypeId) -> Around
        ensures { around_of result ≡ inside (around_of self) node }
    {
        Around {
            here: Some(node),
            outer: self.here,
            outermost: match self.outermost {
                Some(outermost) => Some(outermost),
                None => Some(node),
            },
        }
    }
}

impl Lies {
    // In a field of the innermost structure.
    pub fn in_field(inner: Around, node: TypeId, field: usize) -> Lies
        requires few { field < 2 ^ 32 }
        ensures around { result.around ≡ inner }
        ensures site { result.site ≡ Some (record { container = node.0; field = field }) }
    {
        Lies {
            around: inner,
            site: Some(Site {
                container: node.0,
                field: field as u32,
            }),
        }
    }

    // In a root.
    pub fn in_root() -> Lies
        ensures around { around_of result.around ≡ outside }
        ensures site { result.site ≡ None }
    {
        Lies {
            around: Around::outside(),
            site: None,
        }
    }
}

// What is known of the structure of a number.
fn is_set(flags: &List<bool>, number: u32) -> bool
    ensures { result ≡ flag_at flags.now number }
{
    match flags.get(number as usize) {
        Some(flag) => *flag,
        None => false,
    }
}

impl Source<'_> {
    // The walk of a pointer to a structure.
    pub fn pointer_walk(&self, id: TypeId) -> u32
        requires source { IsSource self.now }
        requires there { id.0 < self.now.structures }
        ensures { result ≡ self.now.structures + id.0 }
    {
        self.structures + id.0
    }

    // The walk of a string pointer.
    pub fn string_walk(&self) -> u32
        requires source { IsSource self.now }
        ensures { result ≡ 2 * self.now.structures }
    {
        2 * self.structures
    }

    // The walk of what is never scanned.
    pub fn bare_walk(&self) -> u32
        requires source { IsSource self.now }
        ensures { result ≡ 2 * self.now.structures + 1 }
    {
        2 * self.structures + 1
    }

    // The first walk of a part or a root.
    pub fn first_part(&self) -> u32
        requires source { IsSource self.now }
        ensures { result ≡ first_of self.now }
    {
        2 * self.structures + 2
    }

    // Whether a structure may stand alone: it names no structure that contains it, and a union has a `desc` of its own.
    pub fn may_stand(&self, id: TypeId) -> bool
        requires source { IsSource self.now }
        ensures { Decides result (MayStand self.now.program.now id) }
    {
        match self.program.structures.get(id.0 as usize) {
            Some(s) => !is_set(self.inner, id.0) && (!s.is_union || s.desc.is_some()),
            None => false,
        }
    }

    // Whether the rows of a structure depend on where it lies: a union has its `desc` from there.
    fn depends_on_site(&self, id: TypeId) -> bool
        ensures { result ≡ depends self.now id (slice_get self.now.program.now.structures id.0) }
    {
        match self.program.structures.get(id.0 as usize) {
            Some(s) => s.is_union || is_set(self.inner, id.0),
            None => false,
        }
    }

    // The outermost structure around what lies there, where a structure reads it.
    fn outermost_for(&self, lies: Lies, id: TypeId, reader: u32) -> Option<u32>
        ensures { result ≡ outermost_if (flag_at self.now.readers.now reader) (Some (first_of_node (around_of lies.around).outermost id)) }
    {
        match lies.around.enter(id).outermost {
            Some(outermost) if is_set(self.readers, reader) => Some(outermost.0),
            _ => None,
        }
    }

    // The part that a structure is at a site, or where none is told.
    fn part_at(&self, lies: Lies, id: TypeId, site: Option<Site>) -> Part
        ensures { result ≡ part_at self.now lies id site }
    {
        let reader = match site {
            Some(site) => site.container,
            None => id.0,
        };
        Part {
            node: id.0,
            site,
            outermost: self.outermost_for(lies, id, reader),
        }
    }

    // The part that a structure by value is. None of a union that is a root, which has its `desc` from there.
    pub fn part_of(&self, lies: Lies, id: TypeId) -> Option<Part>
        ensures node { IfSome result (λ part. part.node ≡ id.0) }
        ensures part { result ≡ part_of self.now lies id }
    {
        if !self.depends_on_site(id) {
            return Some(self.part_at(lies, id, None));
        }
        let site = lies.site?;
        Some(self.part_at(lies, id, Some(site)))
    }
}
