// Paths that begin at several structures: at each that contains one, or at each that is outermost for it.
ghost use Rattle.std.specs.Prelude.{◌≡◌, ◌⊎◌, ◌↔◌, ℕ, false, Contains, IfOk, IfSome, OnOk};
ghost use Rattle.std.specs.Bool.{Decides};
ghost use Rattle.gt_types.specs.declared.expressions.Base.TheVariants.{Outermost as FromOutermost};
ghost use Rattle.gt_types.specs.Paths.{PathFitsBeside};
ghost use Rattle.gt_sets.specs.Sets.{IsIn};
ghost use Rattle.gt_paths.specs.Numbers.{mark_at};
ghost use Rattle.gt_paths.specs.Indexes.{IsIndexOn, inner_in};
ghost use Rattle.gt_paths.specs.OuterPaths.{AllLead, AreAnswers, AreStarts};
ghost use Rattle.gt_paths.specs.Around.{IsAround};

use crate::frontiers::walk;
use crate::indexes::PathIndex;
use gt_sets::StructureSet;
use gt_types::{Copied, List, Program, TypeId, Word};
use std::alloc::{AllocError, Global};
use std::collections::BTreeMap;

/// What is kept of paths that begin at several structures, so that each path is looked at once, and so is what each prefix of them reaches.
#[derive(Drop)]
pub struct Answers {
    // Of paths, whether they lead to numbers from each of the structures.
    paths: BTreeMap<List<Word>, bool>,
    // Of prefixes of paths, the distinct structures by value that they reach; None where one reaches none from some structure.
    prefixes: BTreeMap<List<Word>, Option<List<u32>>>,
}

impl Answers {
    /// No path was looked at. It takes no memory.
    pub fn new(alloc: Global) -> Answers
        ensures answers { (program : Program) (starts : List ℕ) → AreAnswers program starts result }
    {
        Answers {
            paths: BTreeMap::new(alloc),
            prefixes: BTreeMap::new(alloc),
        }
    }
}

/// Whether a path leads to a number from each of these structures. A path that has no answer yet is walked, from the structures that its
/// longest known prefix reaches, and has one from then on. Its only error is out of memory.
pub fn each_leads(
    alloc: Global,
    program: &Program,
    index: &PathIndex,
    starts: &[u32],
    answers: &mut Answers,
    steps: &List<Word>,
) -> Result<bool, AllocError>
    requires index { IsIndexOn program.now index.now }
    requires answers { AreAnswers program.now starts.now answers.old }
    ensures decides { IfOk result (λ r. Decides r (AllLead program.now starts.now steps.now)) }
    ensures answers { AreAnswers program.now starts.now answers.new }
{
    if let Some(leads) = answers.paths.get(steps).copied() {
        return Ok(leads);
    }
    let prefixes = &mut answers.prefixes;
    let leads = walk(alloc, program, index, starts, prefixes, steps.as_slice())?;
    let path = steps.copy(alloc)?;
    answers.paths.insert(path, leads)?;
    Ok(leads)
}

// Adds a structure, where it is not inner.
fn add_free(starts: &mut Vec<u32>, index: &PathIndex, id: u32) -> Result<(), AllocError>
    ensures added { OnOk result ((i : ℕ) → Contains starts.new.items i ↔ (Contains starts.old.items i ⊎ ((i ≡ id) × (mark_at index.now.inner i ≡ false)))) }
{
    if index.is_inner(TypeId(id)) {
        return Ok(());
    }
    starts.push(id)?;
    Ok(())
}

// The structures of a set that are not inner.
fn not_inner(alloc: Global, index: &PathIndex, set: &StructureSet) -> Result<Vec<u32>, AllocError>
    ensures chosen { IfOk result (λ starts. (i : ℕ) → Contains starts.items i ↔ (IsIn set.now i × (mark_at index.now.inner i ≡ false))) }
{
    let mut starts = Vec::new(alloc);
    let mut from = 0;
    'ids: loop {
        let Some(id) = set.next(from) else {
            return Ok(starts);
        };
        add_free(&mut starts, index, id)?;
        if id == u32::MAX {
            return Err(AllocError);
        }
        from = id + 1;
    }
}

// The structures at which a block may begin that holds this one.
fn outermost_of(alloc: Global, index: &PathIndex, node: TypeId) -> Result<Vec<u32>, AllocError>
    ensures starts { (program : Program) → IsIndexOn program index.now → IfOk result (λ starts. AreStarts (inner_in index.now) program node starts.items) }
{
    match index.outers().of(node) {
        Some(set) => not_inner(alloc, index, set),
        None => Err(AllocError),
    }
}

/// The structures at which a block may begin that holds a structure, and of paths whether they lead to numbers from each.
#[derive(Drop)]
pub struct Outermost {
    starts: List<u32>,
    answers: Answers,
}

impl Outermost {
    // The outermost structures. No path has an answer.
    fn of(alloc: Global, index: &PathIndex, node: TypeId) -> Result<Outermost, AllocError>
        ensures around { (program : Program) → IsIndexOn program index.now → IfOk result (IsAround program index.now node) }
    {
        let starts = outermost_of(alloc, index, node)?;
        Ok(Outermost {
            starts: List::of(starts),
            answers: Answers::new(alloc),
        })
    }

    /// The outermost structures that were found, else those that the index has. Its only error is out of memory, which it also says of a
    /// structure that the program does not have.
    pub fn or_of(
        found: Option<Outermost>,
        alloc: Global,
        index: &PathIndex,
        node: TypeId,
    ) -> Result<Outermost, AllocError>
        ensures around { (program : Program) → IsIndexOn program index.now → IfSome found (IsAround program index.now node) → IfOk result (IsAround program index.now node) }
    {
        match found {
            Some(outermost) => Ok(outermost),
            None => Outermost::of(alloc, index, node),
        }
    }

    /// Whether a path leads to a number from each outermost structure of a structure. Its only error is out of memory.
    pub fn lead(
        &mut self,
        alloc: Global,
        program: &Program,
        index: &PathIndex,
        node: TypeId,
        steps: &List<Word>,
    ) -> Result<bool, AllocError>
        requires index { IsIndexOn program.now index.now }
        requires around { IsAround program.now index.now node self.old }
        ensures decides { IfOk result (λ r. Decides r (PathFitsBeside (inner_in index.now) program.now node FromOutermost steps.now)) }
        ensures around { IsAround program.now index.now node self.new }
    {
        let starts = self.starts.as_slice();
        each_leads(alloc, program, index, starts, &mut self.answers, steps)
    }
}
