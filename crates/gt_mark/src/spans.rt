//! Where the blocks lie for which the stack had no room, and how far a pass over them has come.
ghost use Rattle.std.specs.Prelude.{◌≡◌};
ghost use Rattle.gt_mark.specs.Steps.{pass_over, span_with};

/// The addresses from the first to the last.
#[derive(Clone, Copy)]
pub struct Span {
    pub first: u64,
    pub last: u64,
}

/// A pass over blocks by rising address: the address at which it stands, and the last to which it goes.
#[derive(Clone, Copy)]
pub struct Pass {
    pub at: u64,
    pub last: u64,
}

impl Span {
    /// The least span that has an address, and those of another span.
    pub fn with(other: Option<Span>, addr: u64) -> Span
        ensures { result ≡ span_with other addr }
    {
        match other {
            None => Span {
                first: addr,
                last: addr,
            },
            Some(span) => Span {
                first: span.first.min(addr),
                last: span.last.max(addr),
            },
        }
    }
}

impl Pass {
    /// A pass that has come to no address of the span.
    pub fn over(span: Span) -> Pass
        ensures { result ≡ pass_over span }
    {
        Pass {
            at: span.first.saturating_sub(1),
            last: span.last,
        }
    }
}
