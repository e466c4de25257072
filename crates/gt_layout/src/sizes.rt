// How large a structure is with room for so many elements at its end.
ghost use Rattle.std.specs.Prelude.{◌≡◌, ◌≤◌, ◌<◌, ◌+◌, ◌*◌, ◌^◌, length, All};
ghost use Rattle.gt_types.specs.Settled.{Settled};
ghost use Rattle.gt_layout.specs.declared.planes.TheConstants.{MAX_SIZE};
ghost use Rattle.gt_layout.specs.Planes.{IsLaidOut};
ghost use Rattle.gt_layout.specs.Excess.{IsWithin};
ghost use Rattle.gt_layout.specs.Growths.{end_of_tails};
ghost use Rattle.gt_layout.specs.Capacity.{SizeAt};

use crate::planes::{Layouts, TailSpot};
use crate::rounding::round_up;
use gt_types::{Program, TypeId};

impl Layouts {
    /// The bytes of a structure with room for so many elements of the array with a length at its end, or at the end of a
    /// member at any depth; where it is no such structure, its size. It takes no memory. It looks once at each size of the elements of
    /// such arrays.
    pub fn size(&self, program: &Program, id: TypeId, capacity: u32) -> u64
        requires settled { Settled program.now }
        requires laid_out { IsLaidOut program.now self.now }
        requires within { IsWithin program.now self.now }
        requires there { id.0 < length program.now.structures }
        ensures { SizeAt program.now self.now.structures capacity id result }
    {
        let plane = &self.structures.as_slice()[id.0 as usize];
        let growth = &self.growths.as_slice()[id.0 as usize];
        let end = end_of_tails(growth.tails.as_slice(), capacity);
        round_up(end.max(plane.size as u64), plane.align as u64)
    }
}

impl TailSpot {
    // The byte after the last element, with room for so many.
    fn end(self, capacity: u32) -> u64
        requires { self.elem_size ≤ MAX_SIZE }
        ensures end { result ≡ self.offset + capacity * self.elem_size }
        ensures small { result < 2 ^ 53 }
    {
        self.offset as u64 + capacity as u64 * self.elem_size as u64
    }
}

// The byte after the last element of all these arrays, with room for so many in each.
fn end_of_tails(tails: &[TailSpot], capacity: u32) -> u64
    requires small { All (λ tail. tail.elem_size ≤ MAX_SIZE) tails.now }
    ensures end { result ≡ end_of_tails capacity tails.now }
    ensures small { result < 2 ^ 53 }
{
    let mut end = 0;
    for tail in tails {
        end = tail.end(capacity).max(end);
    }
    end
}
