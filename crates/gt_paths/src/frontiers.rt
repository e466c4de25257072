// Paths that are walked from several structures at once: each prefix of a path leads from all of them to a frontier of distinct
// structures, from each of which the next name is asked.
ghost use Rattle.std.specs.Prelude.{◌≡◌, ◌+◌, ◌∷◌, [], true, length, IfOk};
ghost use Rattle.std.specs.Bool.{Decides};
ghost use Rattle.gt_paths.specs.Indexes.{IsIndexOn};
ghost use Rattle.gt_paths.specs.OuterPaths.{AllLead, ArePrefixes, AreReached};

use crate::indexes::PathIndex;
use crate::steps::{leads_to_number, next_structure};
use gt_types::{Copied, List, MAX_DEPTH, Program, TypeId, Word};
use indexmap::IndexSet;
use std::alloc::{AllocError, Global};
use std::collections::BTreeMap;

// Whether a path leads to a number from each of these structures.
fn all_lead(program: &Program, index: &PathIndex, starts: &[u32], steps: &[Word]) -> bool
    requires index { IsIndexOn program.now index.now }
    ensures { Decides result (AllLead program.now starts.now steps.now) }
{
    for start in starts {
        if !leads_to_number(program, index, TypeId(*start), steps) {
            return false;
        }
    }
    true
}

// The distinct structures by value to which a name leads from these structures; None where it leads to none from one of them.
fn reached_from(
    alloc: Global,
    program: &Program,
    index: &PathIndex,
    starts: &[u32],
    name: &Word,
) -> Result<Option<List<u32>>, AllocError>
    requires index { IsIndexOn program.now index.now }
    requires distinct { index.now.distinct ≡ true }
    ensures reached { IfOk result (AreReached program.now starts.now (name.now ∷ [])) }
{
    let mut reached = IndexSet::new(alloc);
    for start in starts {
        let Some(next) = next_structure(program, index, TypeId(*start), name) else {
            return Ok(None);
        };
        reached.insert(next.0)?;
    }
    Ok(Some(List::of(reached.as_slice().to_vec(alloc)?)))
}

// The same names again.
fn path_of(alloc: Global, names: &[Word]) -> Result<List<Word>, AllocError>
    ensures same { IfOk result (λ path. path ≡ names.now) }
{
    let mut path = List::new(alloc);
    for name in names {
        path.push(name.copy(alloc)?)?;
    }
    Ok(path)
}

// The same structures again, where there are any.
fn copy_of(alloc: Global, reached: &Option<List<u32>>) -> Result<Option<List<u32>>, AllocError>
    ensures same { IfOk result (λ made. made ≡ reached.now) }
{
    match reached {
        Some(ids) => Ok(Some(ids.copy(alloc)?)),
        None => Ok(None),
    }
}

// The distinct structures by value that a prefix of paths reaches from these structures; None where it reaches none from one of them. What
// is not kept yet is reached from what the prefix shorter by a name reaches, and kept; of prefixes longer than one that is None, nothing is.
fn reached_by(
    alloc: Global,
    program: &Program,
    index: &PathIndex,
    starts: &[u32],
    prefixes: &mut BTreeMap<List<Word>, Option<List<u32>>>,
    prefix: &[Word],
) -> Result<Option<List<u32>>, AllocError>
    requires index { IsIndexOn program.now index.now }
    requires distinct { index.now.distinct ≡ true }
    requires prefixes { ArePrefixes program.now starts.now prefixes.old }
    ensures reached { IfOk result (AreReached program.now starts.now prefix.now) }
    ensures prefixes { ArePrefixes program.now starts.now prefixes.new }
{
    let [shorter @ .., name] = prefix else {
        return Ok(Some(List::of(starts.to_vec(alloc)?)));
    };
    let key = path_of(alloc, prefix)?;
    if let Some(reached) = prefixes.get(&key) {
        return copy_of(alloc, reached);
    }
    match reached_by(alloc, program, index, starts, prefixes, shorter)? {
        None => Ok(None),
        Some(from) => {
            let reached = reached_from(alloc, program, index, from.as_slice(), name)?;
            let kept = copy_of(alloc, &reached)?;
            prefixes.insert(key, kept)?;
            Ok(reached)
        }
    }
}

// Whether a path of one name or more leads to a number from each of these structures: its last name is asked of each structure that the
// names before it reach.
fn last_leads(
    alloc: Global,
    program: &Program,
    index: &PathIndex,
    starts: &[u32],
    prefixes: &mut BTreeMap<List<Word>, Option<List<u32>>>,
    steps: &[Word],
    last: usize,
) -> Result<bool, AllocError>
    requires index { IsIndexOn program.now index.now }
    requires distinct { index.now.distinct ≡ true }
    requires prefixes { ArePrefixes program.now starts.now prefixes.old }
    requires last { length steps.now ≡ last + 1 }
    ensures decides { IfOk result (λ r. Decides r (AllLead program.now starts.now steps.now)) }
    ensures prefixes { ArePrefixes program.now starts.now prefixes.new }
{
    match reached_by(alloc, program, index, starts, prefixes, &steps[..last])? {
        Some(reached) => Ok(all_lead(program, index, reached.as_slice(), &steps[last..])),
        None => Ok(false),
    }
}

/// Whether a path leads to a number from each of these structures. What each of its prefixes reaches from them is looked for once, however
/// many paths have it: the next name is asked of each distinct structure that the prefix shorter by a name reaches. Then the last name is
/// asked of each that the whole prefix reaches. A path longer than structures can nest, and any path where a structure of the program has
/// two fields of one name, is walked from each structure, up to the first from which it does not lead. Its only error is out of memory.
pub fn walk(
    alloc: Global,
    program: &Program,
    index: &PathIndex,
    starts: &[u32],
    prefixes: &mut BTreeMap<List<Word>, Option<List<u32>>>,
    steps: &[Word],
) -> Result<bool, AllocError>
    requires index { IsIndexOn program.now index.now }
    requires prefixes { ArePrefixes program.now starts.now prefixes.old }
    ensures decides { IfOk result (λ r. Decides r (AllLead program.now starts.now steps.now)) }
    ensures prefixes { ArePrefixes program.now starts.now prefixes.new }
{
    let names = steps.len();
    if !index.is_distinct() || names == 0 || names > MAX_DEPTH + 1 {
        return Ok(all_lead(program, index, starts, steps));
    }
    last_leads(alloc, program, index, starts, prefixes, steps, names - 1)
}
