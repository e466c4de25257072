// The layout of one structure, field after field.
ghost use Rattle.std.specs.Prelude.{◌≡◌, ◌≤◌, ◌<◌, ℕ, ◌+◌, ◌*◌, ◌^◌, ◌++◌, ◌∷◌, [], max, length, OnOk, IfOk, IsTrue, All};
ghost use Rattle.std.specs.Bool.{Decides};
ghost use Rattle.gt_types.specs.declared.limits.TheConstants.{MAX_FIELDS};
ghost use Rattle.gt_layout.specs.Storages.{storage_of};
ghost use Rattle.gt_layout.specs.Places.{end_of, align_of, spot_of};
ghost use Rattle.gt_layout.specs.Planes.{IsHeldPlane, held, is_alignment, is_placeable};
ghost use Rattle.gt_layout.specs.Progress.{finished};

use crate::extents::storage;
use crate::planes::{FieldSpot, MAX_SIZE, Plane};
use crate::rounding::round_up;
use crate::storages::Storage;
use gt_types::{List, Structure, TOO_LARGE};
use std::alloc::{AllocError, Global};

/// The fields that were placed so far.
#[derive(Drop)]
pub struct Draft {
    /// The bit after the last one of all fields so far.
    pub end: u64,
    /// Their greatest alignment.
    pub align: u32,
    pub spots: Vec<FieldSpot>,
}

impl Draft {
    /// No fields.
    pub fn new(alloc: Global) -> Draft
        ensures end { result.end ≡ 0 }
        ensures align { result.align ≡ 1 }
        ensures spots { result.spots.items ≡ [] }
    {
        Draft {
            end: 0,
            align: 1,
            spots: Vec::new(alloc),
        }
    }

    /// Adds a field that begins at this bit.
    pub fn add(&mut self, field: Storage, begin: u64) -> Result<(), AllocError>
        requires placeable { IsTrue (is_placeable field) }
        requires small { begin < 2 ^ 35 }
        ensures end { OnOk result (self.new.end ≡ max self.old.end (end_of field begin)) }
        ensures align { OnOk result (self.new.align ≡ max self.old.align (align_of field)) }
        ensures spots { OnOk result (self.new.spots.items ≡ self.old.spots.items ++ spot_of field begin ∷ []) }
    {
        self.spots.push(field.spot(begin))?;
        self.end = self.end.max(field.end(begin));
        self.align = self.align.max(field.align());
        Ok(())
    }
}

/// Whether each field of a structure can be placed: where the structures that they hold by value are known, this is so for
/// each structure that headers declare.
pub fn can_place(structure: &Structure, known: &[Plane]) -> bool
    ensures { Decides result (All (λ f. IsTrue (is_placeable (storage_of known.now f.ty))) structure.now.fields) }
{
    for field in structure.fields.as_slice() {
        if !storage(&field.ty, known).is_placeable() {
            return false;
        }
    }
    true
}

/// The plane of a structure, where `known` has the planes of the structures that it holds by value, each at the place of its
/// structure. One that is too large is held as [`Plane`] says.
pub fn plane(alloc: Global, structure: &Structure, known: &[Plane]) -> Result<Plane, AllocError>
    requires few_fields { length structure.now.fields ≤ MAX_FIELDS }
    requires placeable { All (λ f. IsTrue (is_placeable (storage_of known.now f.ty))) structure.now.fields }
    ensures plane { IfOk result (λ made. IsHeldPlane known.now structure.now made) }
    ensures aligned { IfOk result (λ made. IsTrue (is_alignment made.align)) }
{
    let mut draft = Draft::new(alloc);
    for field in structure.fields.as_slice() {
        let field = storage(&field.ty, known);
        let begin = field.start(structure.is_union, draft.end);
        draft.add(field, begin)?;
    }
    Ok(finish(alloc, draft))
}

// The plane of the fields that were placed, held within the limit.
pub fn finish(alloc: Global, draft: Draft) -> Plane
    requires aligned { 0 < draft.align }
    requires small { draft.end < 2 ^ 40 }
    ensures { result ≡ held (finished draft.end draft.align draft.spots.items) }
{
    let size = round_up((draft.end + 7) / 8, draft.align as u64);
    if size > MAX_SIZE as u64 {
        return Plane {
            size: TOO_LARGE,
            align: draft.align,
            fields: List::new(alloc),
        };
    }
    Plane {
        size: size as u32,
        align: draft.align,
        fields: List::of(draft.spots),
    }
}
