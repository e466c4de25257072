use gt_types::{Bytes, Copied};
use std::alloc::{AllocError, Global};

/// What a command answers.
#[derive(Debug, PartialEq, Eq, Drop)]
pub enum Answer {
    /// The command is done.
    Done,
    /// A block was made at this address, of this size in bytes.
    Made {
        addr: u64,
        size: u32,
    },
    /// The number at the place.
    Number(i128),
    /// The pointer is null.
    Null,
    /// The object at this address.
    Ref {
        addr: u64,
    },
    /// The text of a value.
    Shown(Bytes),
    /// Fewer bytes are allocated than the threshold, and nothing was collected.
    Skipped,
    /// A collection kept so many objects, freed so many, and dropped so many pairs of caches.
    Collected {
        kept: u32,
        freed: u32,
        dropped: u32,
    },
    /// How many objects there are of each size, and the bytes of all.
    Heap(Bytes),
    /// What the headers declare, with sizes and places: lines, each with its newline.
    Tables(Bytes),
    /// The numbers of the collector: the bytes of all blocks, those after the last collection or load, the bytes from which `collect`
    /// collects, the pages of the image, and the rounds of the last collection.
    Stats {
        allocated: u64,
        last: u64,
        threshold: u64,
        image: u32,
        rounds: u32,
    },
    /// The command was refused, and changed nothing.
    Refused(Why),
}

impl Answer {
    ghost use Rattle.std.specs.Prelude.{◌≡◌};
    ghost use Rattle.gt_next.specs.Texts.{is_refusal as is_refusal_of};

    /// Whether the command was refused.
    pub fn is_refusal(&self) -> bool
        ensures { result ≡ is_refusal_of self.now }
    {
        matches!(self, Answer::Refused(_))
    }
}

impl Copied for Answer {
    fn copy(&self, alloc: Global) -> Result<Answer, AllocError> {
        match self {
            Answer::Done => Ok(Answer::Done),
            Answer::Made { addr, size } => Ok(Answer::Made {
                addr: *addr,
                size: *size,
            }),
            Answer::Number(n) => Ok(Answer::Number(*n)),
            Answer::Null => Ok(Answer::Null),
            Answer::Ref { addr } => Ok(Answer::Ref { addr: *addr }),
            Answer::Shown(text) => Ok(Answer::Shown(text.copy(alloc)?)),
            Answer::Skipped => Ok(Answer::Skipped),
            Answer::Collected {
                kept,
                freed,
                dropped,
            } => Ok(Answer::Collected {
                kept: *kept,
                freed: *freed,
                dropped: *dropped,
            }),
            Answer::Heap(text) => Ok(Answer::Heap(text.copy(alloc)?)),
            Answer::Tables(text) => Ok(Answer::Tables(text.copy(alloc)?)),
            Answer::Stats {
                allocated,
                last,
                threshold,
                image,
                rounds,
            } => Ok(Answer::Stats {
                allocated: *allocated,
                last: *last,
                threshold: *threshold,
                image: *image,
                rounds: *rounds,
            }),
            Answer::Refused(why) => Ok(Answer::Refused(*why)),
        }
    }
}

/// Why a command is refused.
#[derive(Clone, Copy, Debug, PartialEq, Eq)]
pub enum Why {
    /// The variable is not bound.
    Unbound,
    /// The type names no structure that may stand alone, and for `array` no pointers to such and no strings either.
    NoType,
    /// No root and no field has this name.
    NoField,
    /// A step or a value does not suit the type at its place.
    WrongType,
    /// A number is outside the range of its place.
    OutOfRange,
    /// The index is not below the number of elements.
    BadIndex,
    /// The member of a union is not active, or a pointer of the common structure is to be set while none is.
    Inactive,
    /// The result breaks a rule of shapes.
    Shape,
    /// The block would need more than 1,048,576 bytes, or the caches would have more than 1,048,576 pairs together.
    TooLarge,
    /// There is no room for a block of this size in bytes.
    Full { need: u32 },
    /// A step goes on from a null pointer.
    NullStep,
    /// No cache has this name.
    NoCache,
    /// As many variables are bound as may be.
    TooManyVars,
}
