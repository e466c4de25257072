// How many bytes elements take.
ghost use Rattle.std.specs.Prelude.{◌≡◌, ◌≤◌, ◌<◌, ◌+◌, ◌^◌, IfSome, slice_get};
ghost use Rattle.gt_types.specs.Settled.{Settled};
ghost use Rattle.gt_types.specs.declared.program.Program.{Program};
ghost use Rattle.gt_layout.specs.Planes.{IsLaidOut};
ghost use Rattle.gt_layout.specs.Excess.{IsWithin};
ghost use Rattle.gt_layout.specs.Storages.{extent_of};
ghost use Rattle.gt_tree.specs.LeafLaws.{IsTypeIn};

use gt_layout::{FieldSpot, Layouts, extent};
use gt_types::Ty;

// The bytes of a type.
pub fn size_of(ty: &Ty, layouts: &Layouts) -> u32
    ensures size { (program : Program) → Settled program → IsLaidOut program layouts.now → IsWithin program layouts.now → IsTypeIn program ty.now → result ≡ (extent_of layouts.now.structures ty.now).size }
{
    extent(ty, layouts.structures.as_slice()).size
}

// The address of the root at a place, where the static record begins at an address.
pub fn root_address(start: u32, spots: &[FieldSpot], place: usize) -> u32
    ensures address { IfSome (slice_get spots.now place) (λ spot. start + spot.offset < 2 ^ 32 → result ≡ start + spot.offset) }
{
    match spots.get(place) {
        Some(spot) => start.saturating_add(spot.offset),
        None => start,
    }
}
