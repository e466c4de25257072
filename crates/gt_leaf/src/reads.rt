// Which paths and roots the expressions of a program read.
ghost use Rattle.gt_leaf.specs.Tables.{IsTableOf};
ghost use Rattle.gt_leaf.specs.Around.{SomeLead, TopLeads};
ghost use Rattle.gt_leaf.specs.Unread.{Around, none_around, with_itself, structures_from, structures_on, structures_in_statics, IsReadName, IsUnread};
ghost use Rattle.gt_starts.specs.Paths.{BeginsIn};
ghost use Rattle.gt_types.specs.declared.limits.TheConstants.{MAX_STRUCTURES as MOST};
ghost use Rattle.std.specs.Prelude.{◌≡◌, ◌≤◌, ◌↔◌, IsTrue, IfOk, true, None, length, option_copied};

use crate::ends::ends_in;
use crate::places::PlaceSet;
use crate::seeking::{paths_inside, paths_outermost};
use crate::types::{number_name, part_at, root_at};
use gt_paths::Containers;
use gt_starts::PathSet;
use gt_types::{MAX_STRUCTURES, Program, Ty, Word};
use gt_value::{Holder, Place};
use std::alloc::{AllocError, Global};

/// What the expressions of a program read: their paths, each with the structures at which it begins, those from `%0` apart; and roots. A
/// path is kept once, and its last name once behind each of the other names; paths share the sets of structures at which they begin, which
/// take 512 bytes each.
#[derive(Drop)]
pub struct Reads {
    inside: PathSet,
    outermost: PathSet,
    roots: PlaceSet,
}

impl Reads {
    /// The table of a program. Its time and memory are linear in the program's size: for each structure a few sets of 512 bytes are made,
    /// and each containment joins two of them. Its only error is out of memory, which it also says of more structures than any program has,
    /// and of structures that nest deeper than `MAX_DEPTH`.
    pub fn of(alloc: Global, program: &Program) -> Result<Reads, AllocError>
        ensures table { IfOk result (λ t. IsTableOf program.now t) }
    {
        if program.structures.len() > MAX_STRUCTURES {
            return Err(AllocError);
        }
        Reads::of_few(alloc, program)
    }

    // So of a program with no more structures than a program may have.
    fn of_few(alloc: Global, program: &Program) -> Result<Reads, AllocError>
        requires few { length program.now.structures ≤ MOST }
        ensures table { IfOk result (λ t. IsTableOf program.now t) }
    {
        let containers = Containers::of_program(alloc, program)?;
        let inside = paths_inside(alloc, program, &containers)?;
        let outermost = paths_outermost(alloc, program, &containers)?;
        let mut roots = PlaceSet::new(alloc);
        roots.add_named(program)?;
        Ok(Reads {
            inside,
            outermost,
            roots,
        })
    }

    /// Whether no expression reads the leaf at a place, at a path from a value of the type `ty`. It takes no memory. What is no number
    /// is not looked up. Where a union around the leaf has no active member, the name of the leaf's field is looked up alone. Else the way
    /// to the leaf from the outermost structure is looked up, in time that grows with the path; and where some path from `%h` or `%1` ends
    /// in the name of the leaf's field, or this field is not at the path, so is that from each structure on the path. A way is followed to the next
    /// array or union, and grows at most to the depth `MAX_DEPTH` to which structures nest.
    pub fn is_unread(&self, program: &Program, ty: Option<&Ty>, path: &[u32], place: Place) -> bool
        ensures unread { IsTableOf program.now self.now → IsTrue result ↔ IsUnread program.now (structures_on program.now (option_copied ty.entry) path.now) place.active place.holder }
    {
        match place.holder {
            Holder::Element => true,
            Holder::Root(i) => !self.roots.has(i),
            Holder::Field {
                structure,
                place: i,
            } => match number_name(program, structure, i) {
                Some(name) => !self.is_read(program, ty, path, place.active, name),
                None => true,
            },
        }
    }

    /// The same in the static record, of which the first place of a path is that of a root.
    pub fn is_unread_static(&self, program: &Program, path: &[u32], place: Place) -> bool
        ensures unread { IsTableOf program.now self.now → IsTrue result ↔ IsUnread program.now (structures_in_statics program.now path.now) place.active place.holder }
    {
        match path {
            [] => self.is_unread(program, None, path, place),
            [i, rest @ ..] => self.is_unread(program, root_at(program, *i), rest, place),
        }
    }

    // Whether expressions may read a leaf of this name at a path.
    fn is_read(
        &self,
        program: &Program,
        ty: Option<&Ty>,
        path: &[u32],
        active: bool,
        name: &Word,
    ) -> bool
        ensures read { IsTableOf program.now self.now → (result ≡ true) ↔ IsReadName program.now (structures_on program.now (option_copied ty.entry) path.now) active name.now }
    {
        if active {
            self.is_read_outermost(program, ty, path, name)
                || self.is_read_inside(program, ty, path, name)
        } else {
            self.inside.ends(name) || self.outermost.ends(name)
        }
    }

    // Whether a path from `%0` may lead to a leaf of this name from the outermost structure around the part at a path.
    fn is_read_outermost(
        &self,
        program: &Program,
        ty: Option<&Ty>,
        path: &[u32],
        name: &Word,
    ) -> bool
        ensures read { (result ≡ true) ↔ TopLeads (BeginsIn self.now.outermost) name.now (structures_from program.now (none_around None) (option_copied ty.entry) path.now).outermost }
    {
        let Some(ty) = ty else {
            return false;
        };
        let [i, rest @ ..] = path else {
            return false;
        };
        match ty {
            Ty::Node { id, .. } => self.outermost.leads(program, *id, path, name),
            _ => self.is_read_outermost(program, part_at(program, ty, *i), rest, name),
        }
    }

    // Whether a path from `%h` or `%1` may lead to a leaf of this name from a structure around the part at a path. Where the part is a field
    // of this name, in which no such path ends, no way is looked up: each known way to it ends in its name.
    fn is_read_inside(&self, program: &Program, ty: Option<&Ty>, path: &[u32], name: &Word) -> bool
        ensures read { (result ≡ true) ↔ SomeLead (BeginsIn self.now.inside) name.now (structures_on program.now (option_copied ty.entry) path.now).structures }
    {
        if !self.inside.ends(name) && ends_in(program, ty, path, name) {
            return false;
        }
        self.is_read_around(program, ty, path, name, false)
    }

    // So where one may from those around the value, or not.
    fn is_read_around(
        &self,
        program: &Program,
        ty: Option<&Ty>,
        path: &[u32],
        name: &Word,
        is_read: bool,
    ) -> bool
        ensures read { (around : Around) → ((is_read ≡ true) ↔ SomeLead (BeginsIn self.now.inside) name.now around.structures) → (result ≡ true) ↔ SomeLead (BeginsIn self.now.inside) name.now (structures_from program.now around (option_copied ty.entry) path.now).structures }
    {
        let Some(ty) = ty else {
            return is_read;
        };
        let [i, rest @ ..] = path else {
            return is_read;
        };
        let is_read = self.is_read_in(program, ty, path, name, is_read);
        self.is_read_around(program, part_at(program, ty, *i), rest, name, is_read)
    }

    // So from a structure around the parts of a value. From outside an array none leads into its elements.
    fn is_read_in(
        &self,
        program: &Program,
        ty: &Ty,
        path: &[u32],
        name: &Word,
        is_read: bool,
    ) -> bool
        ensures read { (around : Around) → ((is_read ≡ true) ↔ SomeLead (BeginsIn self.now.inside) name.now around.structures) → (result ≡ true) ↔ SomeLead (BeginsIn self.now.inside) name.now (with_itself program.now around ty.now path.now).structures }
    {
        match ty {
            Ty::Node { id, .. } => self.inside.leads(program, *id, path, name) || is_read,
            _ => false,
        }
    }
}
