// When a collection runs.
ghost use Rattle.std.specs.Prelude.{◌≡◌, ◌≤◌};
ghost use Rattle.gt_types.specs.declared.limits.TheConstants.{MAX_MIN_HEAPSIZE};
ghost use Rattle.gt_next.specs.Collecting.{floor_of as floor_by};
ghost use Rattle.gt_collect.specs.Modes.{IsMode, threshold_in};

/// When `collect` collects.
#[derive(Clone, Copy, Debug, PartialEq, Eq)]
pub enum Mode {
    /// Always.
    Force,
    /// Where the heap has grown enough since the last collection or load.
    Heuristic {
        /// The bytes of all blocks after the last collection or load.
        last: u64,
        /// The percentage by which the heap must have grown.
        min_expand: u32,
        /// The units of 1,024 bytes below which a heap counts as so large.
        min_heapsize: u32,
    },
}

impl Mode {
    /// The bytes of all blocks from which `collect` collects. They are 0 for `Force`, which always collects.
    pub fn threshold(self) -> u64
        requires mode { IsMode self }
        ensures { result ≡ threshold_in self }
    {
        match self {
            Mode::Force => 0,
            Mode::Heuristic {
                last,
                min_expand,
                min_heapsize,
            } => {
                let floor = floor_of(last, min_heapsize);
                floor + floor * min_expand as u64 / 100
            }
        }
    }
}

// The bytes from which a heap counts.
fn floor_of(last: u64, min_heapsize: u32) -> u64
    requires min_heapsize { min_heapsize ≤ MAX_MIN_HEAPSIZE }
    ensures { result ≡ floor_by last min_heapsize }
{
    last.max(min_heapsize as u64 * 1024)
}
