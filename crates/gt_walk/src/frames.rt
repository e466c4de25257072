// Where rows stand.
ghost use Rattle.std.specs.Prelude.{◌≡◌, ◌+◌, ◌<◌, ◌^◌};
ghost use Rattle.gt_walk.specs.Rows.{frame_at, entered, origin_of};
ghost use Rattle.gt_walk.specs.Frames.{frame_of};

use crate::Origin;
use gt_types::Base;

// The address from which offsets count, and the addresses of the structures around: the innermost, the one that contains it, and
// the outermost.
#[derive(Clone, Copy)]
pub struct Frame {
    pub at: u64,
    pub here: Option<u64>,
    pub outer: Option<u64>,
    pub outermost: Option<u64>,
}

impl Frame {
    // At an element of a block, or at address 0, in no structure.
    pub fn new(address: u64) -> Frame
        ensures { frame_of result ≡ frame_at address }
    {
        if address == 0 {
            return Frame {
                at: 0,
                here: None,
                outer: None,
                outermost: None,
            };
        }
        Frame {
            at: address,
            here: Some(address),
            outer: None,
            outermost: Some(address),
        }
    }

    // Inside the structure that begins so many bytes on.
    pub fn enter(&self, bytes: u32) -> Frame
        requires near { self.now.at < 2 ^ 63 }
        ensures { frame_of result ≡ entered (frame_of self.now) bytes }
    {
        let at = self.at + bytes as u64;
        Frame {
            at,
            here: Some(at),
            outer: self.here,
            outermost: match self.outermost {
                Some(outermost) => Some(outermost),
                None => Some(at),
            },
        }
    }

    // From where an offset counts; none where there is no such structure.
    pub fn origin(&self, origin: Origin) -> Option<u64>
        ensures { result ≡ origin_of (frame_of self.now) origin }
    {
        match origin {
            Origin::Inside(Base::Here) => self.here,
            Origin::Inside(Base::Outer) => self.outer,
            Origin::Inside(Base::Outermost) => self.outermost,
            Origin::Zero => Some(0),
        }
    }
}
