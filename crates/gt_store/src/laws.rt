//! What a stored value stands for, and what one written leaf makes of the value around it. These calls do nothing: their clauses are laws.
ghost use Rattle.gt_types.specs.declared.program.Program.{Program};
ghost use Rattle.gt_types.specs.Settled.{Settled};
ghost use Rattle.gt_layout.specs.declared.planes.Layouts.{Layouts};
ghost use Rattle.gt_layout.specs.Planes.{IsLaidOut};
ghost use Rattle.gt_layout.specs.Excess.{IsWithin};
ghost use Rattle.gt_store.specs.Leaf.{LeafIsStored, StaticLeafIsStored};
ghost use Rattle.gt_store.specs.Stored.{StoredStands, StoredStaticsStand};

/// What was stored stands: after `store` the bytes at the address stand for the value, beside the blocks with which it fits; so for the
/// static record.
pub fn stored_values_stand()
    ensures value { (program : Program) (layouts : Layouts) → Settled program → IsLaidOut program layouts → IsWithin program layouts → StoredStands program layouts }
    ensures statics { (program : Program) (layouts : Layouts) → Settled program → IsLaidOut program layouts → IsWithin program layouts → StoredStaticsStand program layouts }
{}

/// Where bytes stand for a value and one of its leaves is written at its place, they stand for the value with this leaf, if it fits, and
/// no other byte has changed: so for an element of a block, and for the static record.
pub fn a_leaf_written_in_place_is_stored()
    ensures value { (program : Program) (layouts : Layouts) → Settled program → IsLaidOut program layouts → IsWithin program layouts → LeafIsStored program layouts }
    ensures statics { (program : Program) (layouts : Layouts) → Settled program → IsLaidOut program layouts → IsWithin program layouts → StaticLeafIsStored program layouts }
{}
