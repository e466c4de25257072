//! What the words of the contracts imply together. These calls do nothing: their clauses are laws.

ghost use Rattle.std.specs.Prelude.{ℕ, List, length};
ghost use Rattle.gt_space.specs.Range.{Range, IsInside};
ghost use Rattle.gt_space.specs.Laws.{AddressesStay, BytesReadBack, OtherBytesStay, NumbersReadBack, OtherNumbersStay, PagesHold};

/// What is read where it was written is what was written, and what is read elsewhere is as before.
pub fn writes_read_back()
    ensures addresses { AddressesStay }
    ensures bytes { BytesReadBack }
    ensures numbers { (r : Range) (addr n : ℕ) → NumbersReadBack r addr n }
    ensures other_bytes { OtherBytesStay }
    ensures other_numbers { (r : Range) (addr : ℕ) (new : List ℕ) (other : ℕ) → IsInside r addr (length new) → OtherNumbersStay r addr new other }
{}

/// The pages below `HEAP_START` hold the static record, and are the fewest that do.
pub fn static_pages_hold_the_record()
    ensures { (statics : ℕ) → PagesHold statics }
{}
