//! The characters of a text as one more object.
ghost use Rattle.std.specs.Prelude.{◌≡◌, ℕ, Err, IfOk, OnErr};
ghost use Rattle.gt_types.specs.declared.program.Program.{Program};
ghost use Rattle.gt_types.specs.Settled.{Settled};
ghost use Rattle.gt_layout.specs.declared.planes.Layouts.{Layouts};
ghost use Rattle.gt_layout.specs.Planes.{IsLaidOut};
ghost use Rattle.gt_layout.specs.Excess.{IsWithin};
ghost use Rattle.gt_pages.specs.Ledger.{Room};
ghost use Rattle.gt_graph.specs.Places as places;
ghost use Rattle.gt_graph.specs.Good.{Heap};
ghost use Rattle.gt_objects.specs.Holding.{IsHeapOf};
ghost use Rattle.gt_objects.specs.Making.{HasSize, IsTooLarge, IsMade, known_text, text_object};
ghost use Rattle.gt_objects.specs.declared.making.MakeFail.TheVariants.{Full, TooLarge};

use crate::making::{Made, MakeFail};
use crate::objects::{Known, Objects};
use gt_pages::{SlotFail, rounded_size};
use gt_value::BlockKind;

impl Objects {
    /// Makes the characters of a text: its bytes, and a zero after them. All else is as before; where none are made, all is. Apart from
    /// writing the block and the search for a new page it takes constant time.
    pub fn make_text(&mut self, text: &[u8]) -> Result<Made, MakeFail>
        requires ready { (program : Program) × (layouts : Layouts) × (heap : Heap) × IsHeapOf program layouts self.old heap }
        ensures made { IfOk result (λ made. (program : Program) (layouts : Layouts) (heap : Heap) → Settled program → IsLaidOut program layouts → IsWithin program layouts
            → IsHeapOf program layouts self.old heap → IsMade program layouts heap (text_object text.now) made.addr made.size self.new) }
        ensures too_large { result ≡ Err TooLarge → (program : Program) (layouts : Layouts) → IsTooLarge program layouts (known_text text.now) }
        ensures size { (need : ℕ) → result ≡ Err (Full need) → (program : Program) (layouts : Layouts) → HasSize program layouts (known_text text.now) need }
        ensures full { (need : ℕ) → result ≡ Err (Full need) → (program : Program) (layouts : Layouts) (heap : Heap) → IsHeapOf program layouts self.old heap
            → ¬ Room (places.ledger_of heap.places) need }
        ensures unchanged { OnErr result ((program : Program) (layouts : Layouts) (heap : Heap) → IsHeapOf program layouts self.old heap → IsHeapOf program layouts self.new heap) }
        ensures bytes { OnErr result (self.new.space ≡ self.old.space) }
    {
        let Ok(count) = u32::try_from(text.len() as u64 + 1) else {
            return Err(MakeFail::TooLarge);
        };
        let Some(size) = rounded_size(count) else {
            return Err(MakeFail::TooLarge);
        };
        let known = Known {
            kind: BlockKind::Chars,
            count,
            capacity: 0,
        };
        match self.take_block(size, known) {
            Ok(addr) => {
                self.space.copy_in(addr, text);
                Ok(Made { addr, size })
            }
            Err(SlotFail::Full) => Err(MakeFail::Full { need: size }),
            Err(SlotFail::Memory) => Err(MakeFail::Memory),
        }
    }
}
