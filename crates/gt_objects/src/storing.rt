//! Leaves and values written in the bytes of a space, by whoever knows that they stand for a heap then.
ghost use Rattle.std.specs.Prelude.{◌≡◌, ◌≤◌, ◌-◌, replicate};
ghost use Rattle.gt_types.specs.Settled.{Settled};
ghost use Rattle.gt_layout.specs.Planes.{IsLaidOut};
ghost use Rattle.gt_layout.specs.Excess.{IsWithin};
ghost use Rattle.gt_space.specs.Range.{IsInside, KeepsAddresses, with_bytes};
ghost use Rattle.gt_tree.specs.Trees.{Trees, Rec};
ghost use Rattle.gt_value.specs.Bytes.{IsRoomFor};
ghost use Rattle.gt_value.specs.Places.{HasBits};
ghost use Rattle.gt_value.specs.Values.{tree_of};
ghost use Rattle.gt_store.specs.Leaf.{MayBe, IsLeafWritten};
ghost use Rattle.gt_value.specs.Bytes.{IsElement, FitsSome, IsStored, StaticsFitSome, AreStaticsStored};

use crate::objects::Objects;
use gt_layout::Layouts;
use gt_types::{Program, Ty};
use gt_value::{LeafContent, Place, Value};

impl Objects {
    /// Writes what the leaf at a place is from now on, as `gt_store::store_leaf` does.
    pub fn store_leaf(&mut self, place: Place, leaf: LeafContent)
        requires from_start { self.old.space.start ≤ place.addr }
        requires bits { HasBits self.old.space (place.addr - self.old.space.start) place.bit place.kind }
        requires may { MayBe place.kind leaf }
        ensures addresses { KeepsAddresses self.old.space self.new.space }
        ensures written { IsLeafWritten place leaf self.old.space self.new.space }
        ensures rest { self.new ≡ record self.old { space = self.new.space } }
    {
        gt_store::store_leaf(&mut self.space, place, leaf);
    }

    /// Writes a value of an element of a block, with room for so many elements at its end, as `gt_store::store` does.
    pub fn store(
        &mut self,
        program: &Program,
        layouts: &Layouts,
        ty: &Ty,
        addr: u64,
        capacity: u32,
        value: &Value,
    )
        requires settled { Settled program.now }
        requires laid { IsLaidOut program.now layouts.now }
        requires within { IsWithin program.now layouts.now }
        requires inside { IsRoomFor program.now layouts.now capacity ty.now self.old.space addr }
        requires element { IsElement program.now ty.now }
        requires fits { FitsSome program.now capacity ty.now (tree_of value.now) }
        ensures addresses { KeepsAddresses self.old.space self.new.space }
        ensures stored { IsStored program.now layouts.now capacity ty.now (tree_of value.now) self.old.space addr self.new.space }
        ensures rest { self.new ≡ record self.old { space = self.new.space } }
    {
        gt_store::store(program, layouts, &mut self.space, ty, addr, capacity, value);
    }

    /// Makes the eight bytes at an address zero.
    pub fn clear_word(&mut self, addr: u64)
        requires inside { IsInside self.old.space addr 8 }
        ensures bytes { self.new.space ≡ with_bytes self.old.space addr (replicate 8 0) }
        ensures addresses { KeepsAddresses self.old.space self.new.space }
        ensures rest { self.new ≡ record self.old { space = self.new.space } }
    {
        self.space.fill(addr, 8, 0);
    }

    /// Writes values of the roots, as `gt_store::store_statics` does.
    pub fn store_statics(&mut self, program: &Program, layouts: &Layouts, values: &Value)
        requires settled { Settled program.now }
        requires laid { IsLaidOut program.now layouts.now }
        requires within { IsWithin program.now layouts.now }
        requires inside { IsInside self.old.space self.old.space.start layouts.now.statics.size }
        requires fits { (parts : Trees) × (tree_of values.now ≡ Rec parts) × StaticsFitSome program.now parts }
        ensures addresses { KeepsAddresses self.old.space self.new.space }
        ensures stored { (parts : Trees) → tree_of values.now ≡ Rec parts → AreStaticsStored program.now layouts.now parts self.old.space self.new.space }
        ensures rest { self.new ≡ record self.old { space = self.new.space } }
    {
        gt_store::store_statics(program, layouts, &mut self.space, values);
    }
}
