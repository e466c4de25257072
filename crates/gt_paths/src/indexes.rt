// What checks of paths look up.
ghost use Rattle.std.specs.Prelude.{◌≡◌, ◌≤◌, length, slice_get, IfOk, All};
ghost use Rattle.gt_types.specs.declared.limits.TheConstants.{MAX_STRUCTURES, MAX_FIELDS};
ghost use Rattle.gt_types.specs.declared.program.Structure.{Structure};
ghost use Rattle.gt_fields.specs.FieldNames.{AreNamesOf};
ghost use Rattle.gt_fields.specs.Places.{bind, place_in};
ghost use Rattle.gt_paths.specs.Indexes.{IsIndexOf, IsIndexOn};
ghost use Rattle.gt_paths.specs.Numbers.{mark_at, mark_in};

use crate::commons::step_rows;
use crate::containers::Containers;
use crate::distinct::are_distinct;
use crate::inner::inner_marks;
use crate::outers::Outers;
use crate::plain::plain_marks;
use gt_fields::FieldNames;
use gt_types::{List, Program, TypeId, Word};
use std::alloc::{AllocError, Global};

/// What checks of paths look up, made once for a program: fields by name, which structures contain a structure, which may be outermost
/// around it, which are inner, and common structures. It takes 512 bytes for each structure, besides what it takes for each field.
#[derive(Drop)]
pub struct PathIndex {
    names: FieldNames,
    // Whether no structure has two fields of one name.
    distinct: bool,
    containers: Containers,
    outers: Outers,
    // Which structures are inner, by number.
    inner: List<bool>,
    // Whether a path may go to a field, by the number of the structure and the place of the field.
    steps: List<List<bool>>,
}

impl PathIndex {
    /// The index of a program. Its only error is out of memory.
    pub fn new(alloc: Global, program: &Program) -> Result<PathIndex, AllocError>
        requires few { length program.now.structures ≤ MAX_STRUCTURES }
        requires fields { All (λ s. length s.fields ≤ MAX_FIELDS) program.now.structures }
        ensures index { IfOk result (IsIndexOf program.now) }
    {
        let inner = inner_marks(alloc, program)?;
        PathIndex::with_inner(alloc, program, inner)
    }

    /// The index of a program, where these structures are inner. Its only error is out of memory.
    pub fn with_inner(
        alloc: Global,
        program: &Program,
        inner: List<bool>,
    ) -> Result<PathIndex, AllocError>
        requires few { length program.now.structures ≤ MAX_STRUCTURES }
        requires fields { All (λ s. length s.fields ≤ MAX_FIELDS) program.now.structures }
        ensures index { IfOk result (IsIndexOn program.now) }
        ensures inner { IfOk result (λ index. index.inner ≡ inner) }
    {
        let names = FieldNames::of(alloc, program.structures.as_slice())?;
        let distinct = are_distinct(program, &names);
        let containers = Containers::of_program(alloc, program)?;
        let outers = Outers::of_program(alloc, program, &containers)?;
        let plain = plain_marks(alloc, program, &containers)?;
        let steps = step_rows(alloc, program, &plain)?;
        Ok(PathIndex {
            names,
            distinct,
            containers,
            outers,
            inner,
            steps,
        })
    }

    /// The fields of the program by their names.
    pub fn names(&self) -> &FieldNames
        ensures names { result.now ≡ self.now.names }
    {
        &self.names
    }

    /// Whether no structure has two fields of one name.
    pub(crate) fn is_distinct(&self) -> bool
        ensures distinct { result ≡ self.now.distinct }
    {
        self.distinct
    }

    /// The place of a field of a structure, by its name: the first of this name.
    pub(crate) fn place(&self, node: TypeId, name: &Word) -> Option<u32>
        ensures place { (structures : List Structure) → AreNamesOf structures self.now.names → result ≡ bind (slice_get structures node.0) (place_in name.now) }
    {
        self.names.place(node, name)
    }

    /// Which structures contain a structure.
    pub(crate) fn containers(&self) -> &Containers
        ensures containers { result.now ≡ self.now.containers }
    {
        &self.containers
    }

    /// Which structures may be outermost around a structure.
    pub(crate) fn outers(&self) -> &Outers
        ensures outers { result.now ≡ self.now.outers }
    {
        &self.outers
    }

    /// Whether the structure of this number is marked as inner.
    pub(crate) fn is_inner(&self, node: TypeId) -> bool
        ensures inner { result ≡ mark_at self.now.inner node.0 }
    {
        match self.inner.get(node.0 as usize) {
            None => false,
            Some(mark) => *mark,
        }
    }

    /// Whether a path may go from a structure to its field at a place.
    pub(crate) fn may_step(&self, node: TypeId, place: usize) -> bool
        ensures step { result ≡ mark_in self.now.steps node.0 place }
    {
        match self.steps.get(node.0 as usize) {
            None => false,
            Some(row) => match row.get(place) {
                None => false,
                Some(mark) => *mark,
            },
        }
    }
}
