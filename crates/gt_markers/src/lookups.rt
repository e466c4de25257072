// Constants and roots by name.
ghost use Rattle.std.specs.Prelude.{◌≡◌, ◌<◌, ◌^◌, [], length, IfOk};
ghost use Rattle.gt_names.specs.Entries.{value_in, with_value};
ghost use Rattle.gt_drafts.specs.declared.draft.Draft.{Draft};
ghost use Rattle.gt_markers.specs.Expressions.{constant_of, scalar_root, is_scalar, is_number_base};
ghost use Rattle.gt_markers.specs.Lookups.{IsLookupOf, constants_from, roots_from, with_root};

use gt_drafts::{BaseType, Draft, DraftConstant, DraftRoot};
use gt_items::Stars;
use gt_names::Table;
use gt_types::Word;
use std::alloc::{AllocError, Global};

/// The constants of a draft, and the places of its roots that are numbers, each found by name in constant time.
#[derive(Drop)]
pub struct Lookup {
    constants: Table<i64>,
    roots: Table<u32>,
}

fn is_number_base(base: &BaseType, stars: Stars) -> bool
    ensures { result ≡ is_number_base base.now stars }
{
    match (base, stars) {
        (BaseType::Number { .. }, Stars::Zero) => true,
        _ => false,
    }
}

// Whether a root is a number.
fn is_scalar(root: &DraftRoot) -> bool
    ensures { result ≡ is_scalar root.now }
{
    is_number_base(&root.ty.resolved.base, root.ty.resolved.stars) && root.ty.bounds.is_empty()
}

fn with_constant(
    alloc: Global,
    before: Table<i64>,
    constant: &DraftConstant,
) -> Result<Table<i64>, AllocError>
    ensures made { IfOk result (λ made. made ≡ with_value before constant.now.name constant.now.value) }
{
    before.with(alloc, &constant.name, constant.value)
}

#[tactic(auto, unfolding(crate::specs::Lookups::constants_from))]
fn constants(alloc: Global, constants: &[DraftConstant]) -> Result<Table<i64>, AllocError>
    ensures made { IfOk result (λ made. made ≡ constants_from [] constants.now) }
{
    let mut made = Table::new(alloc);
    for constant in constants {
        made = with_constant(alloc, made, constant)?;
    }
    Ok(made)
}

// A root at a place, where it is a number.
fn with_root(
    alloc: Global,
    before: Table<u32>,
    place: u32,
    root: &DraftRoot,
) -> Result<Table<u32>, AllocError>
    ensures made { IfOk result (λ made. made ≡ with_root before place root.now) }
{
    if is_scalar(root) {
        before.with(alloc, &root.name.word, place)
    } else {
        Ok(before)
    }
}

#[tactic(auto, unfolding(crate::specs::Lookups::roots_from))]
fn roots(alloc: Global, roots: &[DraftRoot]) -> Result<Table<u32>, AllocError>
    requires few { length roots.now < 2 ^ 32 }
    ensures made { IfOk result (λ made. made ≡ roots_from [] 0 roots.now) }
{
    let mut made = Table::new(alloc);
    for (place, root) in roots.iter().enumerate() {
        made = with_root(alloc, made, place as u32, root)?;
    }
    Ok(made)
}

impl Lookup {
    /// The names of a draft. Its only error is out of memory.
    pub fn of(alloc: Global, draft: &Draft) -> Result<Lookup, AllocError>
        requires few { length draft.now.roots < 2 ^ 32 }
        ensures lookup { IfOk result (IsLookupOf draft.now) }
    {
        Ok(Lookup {
            constants: constants(alloc, draft.constants.as_slice())?,
            roots: roots(alloc, draft.roots.as_slice())?,
        })
    }

    /// The value of a constant.
    pub fn constant(&self, name: &Word) -> Option<i64>
        ensures held { result ≡ value_in self.now.constants name.now }
        ensures constant { (draft : Draft) → IsLookupOf draft self.now → result ≡ constant_of draft name.now }
    {
        self.constants.get(name).copied()
    }

    /// The place of a root that is a number.
    pub fn root(&self, name: &Word) -> Option<u32>
        ensures root { (draft : Draft) → IsLookupOf draft self.now → result ≡ scalar_root draft name.now }
    {
        self.roots.get(name).copied()
    }
}
