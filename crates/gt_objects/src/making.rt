//! One more object.
ghost use Rattle.std.specs.Prelude.{◌≡◌, ◌+◌, ◌*◌, ◌≤◌, ℕ, Contains, Err, IfOk, IfErr, OnErr, length, replicate};
ghost use Rattle.gt_types.specs.Settled.{Settled};
ghost use Rattle.gt_layout.specs.Planes.{IsLaidOut};
ghost use Rattle.gt_layout.specs.Excess.{IsWithin};
ghost use Rattle.gt_space.specs.declared.TheConstants.{HEAP_START, PAGE_BYTES};
ghost use Rattle.gt_pages.specs.Ledger.{Room, sizes};
ghost use Rattle.gt_pages.specs.Contents.{ledger_of};
ghost use Rattle.gt_graph.specs.Objects.{Object};
ghost use Rattle.gt_graph.specs.Places as places;
ghost use Rattle.gt_graph.specs.Good.{Heap};
ghost use Rattle.gt_objects.specs.Holding.{IsHeapOf};
ghost use Rattle.gt_objects.specs.Making.{HasSize, IsTooLarge, IsZeroObject, IsMade, TakesBlock, IsAsBefore};
ghost use Rattle.gt_objects.specs.declared.making.MakeFail.TheVariants.{Full, TooLarge};

use crate::objects::{Known, Objects};
use crate::sizes::block_size;
use gt_layout::Layouts;
use gt_pages::SlotFail;
use gt_types::Program;

/// An object that was made: its address, and the bytes of its block.
#[derive(Clone, Copy, Debug, PartialEq, Eq)]
pub struct Made {
    pub addr: u64,
    pub size: u32,
}

/// Why no object was made.
#[derive(Clone, Copy, Debug, PartialEq, Eq)]
pub enum MakeFail {
    /// Memory ran out.
    Memory,
    /// No block is so large.
    TooLarge,
    /// There is no room for a block of this size in bytes.
    Full { need: u32 },
}

impl Objects {
    /// Makes a zero object. It is known, and the bytes of its block are zero; all else is as before. Where none is made, all is as
    /// before. Apart from zeroing the block, the size of a union and the search for a new page it takes constant time.
    pub fn make(
        &mut self,
        program: &Program,
        layouts: &Layouts,
        known: Known,
    ) -> Result<Made, MakeFail>
        requires settled { Settled program.now }
        requires laid { IsLaidOut program.now layouts.now }
        requires within { IsWithin program.now layouts.now }
        requires ready { (heap : Heap) × (o : Object) × IsHeapOf program.now layouts.now self.old heap × IsZeroObject program.now heap.graph known o }
        ensures made { IfOk result (λ made. (heap : Heap) (o : Object) → IsHeapOf program.now layouts.now self.old heap → IsZeroObject program.now heap.graph known o
            → IsMade program.now layouts.now heap o made.addr made.size self.new) }
        ensures too_large { result ≡ Err TooLarge → IsTooLarge program.now layouts.now known }
        ensures size { (need : ℕ) → result ≡ Err (Full need) → HasSize program.now layouts.now known need }
        ensures full { (need : ℕ) → result ≡ Err (Full need) → (heap : Heap) → IsHeapOf program.now layouts.now self.old heap → ¬ Room (places.ledger_of heap.places) need }
        ensures unchanged { OnErr result ((heap : Heap) → IsHeapOf program.now layouts.now self.old heap → IsHeapOf program.now layouts.now self.new heap) }
        ensures bytes { OnErr result (self.new.space ≡ self.old.space) }
    {
        let Some(size) = block_size(program, layouts, known) else {
            return Err(MakeFail::TooLarge);
        };
        match self.take_block(size, known) {
            Ok(addr) => Ok(Made { addr, size }),
            Err(SlotFail::Full) => Err(MakeFail::Full { need: size }),
            Err(SlotFail::Memory) => Err(MakeFail::Memory),
        }
    }

    // Takes a block of zero bytes of which this is known, and gives its address.
    pub(crate) fn take_block(&mut self, size: u32, known: Known) -> Result<u64, SlotFail>
        requires listed { Contains sizes size }
        requires shelves { length self.old.directory.shelves ≡ self.old.pages.pages }
        requires start { self.old.space.start ≤ HEAP_START }
        requires sized { HEAP_START + PAGE_BYTES * self.old.pages.pages ≤ self.old.space.start + length self.old.space.bytes }
        ensures taken { IfOk result (λ addr. TakesBlock self.old known addr size (replicate size 0) self.new) }
        ensures full { IfErr result (λ e. e ≡ SlotFail.Full → ¬ Room (ledger_of self.old.pages) size) }
        ensures unchanged { OnErr result (IsAsBefore self.old self.new) }
    {
        let Ok(()) = self.directory.reserve(size, known) else {
            return Err(SlotFail::Memory);
        };
        match self.pages.alloc_slot(size) {
            Ok(addr) => {
                self.pages.sound();
                self.space.fill(addr, size as u64, 0);
                self.directory.put(addr, size, known);
                Ok(addr)
            }
            Err(fail) => Err(fail),
        }
    }
}
