// An index of the names of a program.
ghost use Rattle.std.specs.Prelude.{◌≡◌, ◌≤◌, ℕ, length, IfOk, All};
ghost use Rattle.gt_types.specs.declared.limits.TheConstants.{MAX_STRUCTURES, MAX_FIELDS};
ghost use Rattle.gt_types.specs.declared.program.Program.{Program};
ghost use Rattle.gt_next.specs.Paths.{root_of};
ghost use Rattle.gt_next.specs.Caching.{cache_of};
ghost use Rattle.gt_kinds.specs.Names.{AreNamesOf};

use crate::named::places_of;
use gt_names::Table;
use gt_paths::PathIndex;
use gt_types::{Program, Word};
use std::alloc::{AllocError, Global};

/// The names of a program, made once. Each is found in constant time.
#[derive(Drop)]
pub struct ProgramNames {
    pub(crate) tags: Table<usize>,
    pub(crate) roots: Table<usize>,
    pub(crate) caches: Table<usize>,
    pub(crate) words: Table<usize>,
    pub(crate) standing: PathIndex,
}

impl ProgramNames {
    /// The names of a program. It fails only if memory runs out.
    pub fn of(alloc: Global, program: &Program) -> Result<ProgramNames, AllocError>
        requires few { length program.now.structures ≤ MAX_STRUCTURES }
        requires fields { All (λ s. length s.fields ≤ MAX_FIELDS) program.now.structures }
        ensures names { IfOk result (AreNamesOf program.now) }
    {
        let structures = program.structures.as_slice();
        let tags = places_of(alloc, structures)?;
        let globals = program.roots.as_slice();
        let roots = places_of(alloc, globals)?;
        let tables = program.caches.as_slice();
        let caches = places_of(alloc, tables)?;
        let typedefs = program.words.as_slice();
        let words = places_of(alloc, typedefs)?;
        let standing = PathIndex::new(alloc, program)?;
        Ok(ProgramNames {
            tags,
            roots,
            caches,
            words,
            standing,
        })
    }

    /// The place of the root of a name.
    pub fn root(&self, name: &Word) -> Option<usize>
        ensures place { (program : Program) → AreNamesOf program self.now → result ≡ root_of program name.now }
    {
        self.roots.get(name).copied()
    }

    /// The place of the cache of a name.
    pub fn cache(&self, name: &Word) -> Option<usize>
        ensures place { (program : Program) → AreNamesOf program self.now → result ≡ cache_of program name.now }
    {
        self.caches.get(name).copied()
    }
}
