// The walks of blocks.
ghost use Rattle.std.specs.Prelude.{◌≡◌, ◌<◌, ◌+◌, ◌⊎◌, [], ◌∷◌, ◌++◌, ℕ, List, None, false, length, flat_map, IfOk, OnOk, All};
ghost use Rattle.gt_walk.specs.declared.rows.Count.TheVariants as count;
ghost use Rattle.gt_walk.specs.declared.rows.WalkRow.{WalkRow};
ghost use Rattle.gt_walk.specs.declared.rows.WalkRow.TheVariants as row;
ghost use Rattle.gt_walk.specs.Nested.{parts_in};
ghost use Rattle.gt_tables.specs.Building.{IsSource, first_of, AreRows, AreParts, Grows, Shallow, EndAsBlocks, AreServed, ServesWalk, ServesWalks, ServesPointers, IsPointerWalk};
ghost use Rattle.gt_tables.specs.Counting.{named_by, StaysCounted};

use crate::chains::chain_offset;
use crate::forms::note;
use crate::parts::Parts;
use crate::rows::structure_rows;
use crate::sources::{Around, Source};
use gt_types::{List, MAX_DEPTH, TypeId};
use gt_walk::{Count, WalkRow};
use std::alloc::AllocError;

// The rows of a structure that stands alone. Of one that may not there is the note alone.
fn standing_rows(
    source: &Source<'_>,
    parts: &mut Parts,
    id: TypeId,
) -> Result<Vec<WalkRow>, AllocError>
    requires source { IsSource source.now }
    requires parts { AreParts source.now.program.now parts.old }
    requires served { AreServed source.now parts.old }
    requires there { id.0 < length source.now.program.now.structures }
    ensures grows { OnOk result (Grows source.now.program.now parts.old parts.new) }
    ensures counted { IfOk result (λ rows. StaysCounted source.now (flat_map parts_in rows.items) parts.old parts.new) }
    ensures served { OnOk result (AreServed source.now parts.new) }
    ensures serves { IfOk result (λ rows. ServesWalk source.now parts.new.walks.items id rows.items) }
    ensures rows { IfOk result (λ rows. AreRows (first_of source.now) parts.new.walks.items Shallow rows.items) }
{
    let structure = &source.program.structures.as_slice()[id.0 as usize];
    let chain = chain_offset(source.program, source.layouts, id, structure);
    if !source.may_stand(id) {
        let size = source.layouts.structures.as_slice()[id.0 as usize].size;
        return note(source.alloc, size, chain);
    }
    let inner = Around::outside().enter(id);
    structure_rows(source, parts, inner, id, &structure.desc, chain, MAX_DEPTH)
}

// The rows of pointers to blocks of a walk, of which so many elements are walked.
fn pointing_rows(source: &Source<'_>, walk: u32, n: u32) -> Result<Vec<WalkRow>, AllocError>
    ensures { IfOk result (λ rows. rows.items ≡ row.Note 8 None ∷ row.Ptr 0 walk (count.Fixed n) false ∷ []) }
{
    let mut rows = note(source.alloc, 8, None)?;
    rows.push(WalkRow::Ptr {
        offset: 0,
        walk,
        count: Count::Fixed(n),
        reorder: false,
    })?;
    Ok(rows)
}

// The rows of pointers to a structure. Of one that may not stand alone there is the note alone.
fn pointer_rows(source: &Source<'_>, id: TypeId) -> Result<Vec<WalkRow>, AllocError>
    requires source { IsSource source.now }
    requires there { id.0 < source.now.structures }
    ensures rows { IfOk result (λ rows. (walks : List (List WalkRow)) → AreRows (first_of source.now) walks Shallow rows.items) }
    ensures serves { IfOk result (λ rows. IsPointerWalk source.now.program.now id rows.items) }
    ensures bare { IfOk result (λ rows. flat_map parts_in rows.items ≡ []) }
{
    if source.may_stand(id) {
        pointing_rows(source, id.0, 1)
    } else {
        note(source.alloc, 8, None)
    }
}

// The walks of structures that stand alone.
fn standing_walks(source: &Source<'_>, parts: &mut Parts) -> Result<Vec<List<WalkRow>>, AllocError>
    requires source { IsSource source.now }
    requires parts { AreParts source.now.program.now parts.old }
    requires served { AreServed source.now parts.old }
    ensures grows { OnOk result (Grows source.now.program.now parts.old parts.new) }
    ensures counted { IfOk result (λ walks. StaysCounted source.now (named_by walks.items) parts.old parts.new) }
    ensures served { OnOk result (AreServed source.now parts.new) }
    ensures serves { IfOk result (λ walks. ServesWalks source.now parts.new.walks.items walks.items) }
    ensures walks { IfOk result (λ walks. All (AreRows (first_of source.now) parts.new.walks.items Shallow) walks.items) }
    ensures long { IfOk result (λ walks. length walks.items ≡ source.now.structures) }
{
    let mut walks = Vec::new(source.alloc);
    for i in 0..source.structures {
        let rows = standing_rows(source, parts, TypeId(i))?;
        walks.push(List::of(rows))?;
    }
    Ok(walks)
}

// Adds the walks of pointers to structures.
fn add_pointer_walks(source: &Source<'_>, walks: &mut Vec<List<WalkRow>>) -> Result<(), AllocError>
    requires source { IsSource source.now }
    ensures walks { OnOk result ((parts : List (List WalkRow)) → All (AreRows (first_of source.now) parts Shallow) walks.old.items → All (AreRows (first_of source.now) parts Shallow) walks.new.items) }
    ensures long { OnOk result (length walks.new.items ≡ length walks.old.items + source.now.structures) }
    ensures kept { OnOk result ((more : List (List WalkRow)) × (walks.new.items ≡ walks.old.items ++ more)) }
    ensures pointers { OnOk result (ServesPointers source.now.program.now (length walks.old.items) walks.new.items) }
    ensures bare { OnOk result (named_by walks.new.items ≡ named_by walks.old.items) }
{
    for i in 0..source.structures {
        let rows = pointer_rows(source, TypeId(i))?;
        walks.push(List::of(rows))?;
    }
    Ok(())
}

// The walks of blocks by their numbers, while those of parts are made.
pub fn block_walks(source: &Source<'_>, parts: &mut Parts) -> Result<Vec<List<WalkRow>>, AllocError>
    requires source { IsSource source.now }
    requires parts { AreParts source.now.program.now parts.old }
    requires served { AreServed source.now parts.old }
    ensures grows { OnOk result (Grows source.now.program.now parts.old parts.new) }
    ensures counted { IfOk result (λ walks. StaysCounted source.now (named_by walks.items) parts.old parts.new) }
    ensures served { OnOk result (AreServed source.now parts.new) }
    ensures serves { IfOk result (λ walks. ServesWalks source.now parts.new.walks.items walks.items) }
    ensures pointers { IfOk result (λ walks. ServesPointers source.now.program.now (length source.now.program.now.structures) walks.items) }
    ensures walks { IfOk result (λ walks. All (AreRows (first_of source.now) parts.new.walks.items Shallow) walks.items) }
    ensures long { IfOk result (λ walks. length walks.items ≡ first_of source.now) }
    ensures ends { IfOk result (λ walks. EndAsBlocks source.now.program.now walks.items) }
{
    let mut walks = standing_walks(source, parts)?;
    add_pointer_walks(source, &mut walks)?;
    let strings = pointing_rows(source, source.bare_walk(), 0)?;
    walks.push(List::of(strings))?;
    let bare = note(source.alloc, 1, None)?;
    walks.push(List::of(bare))?;
    Ok(walks)
}
