//! What a mark says of a block.

/// The mark of a block: by which row its edges are walked, how many values it has, and whether it is left to a pass.
#[derive(Clone, Copy, Debug, PartialEq, Eq)]
pub struct Mark {
    pub walk: u32,
    pub count: u32,
    pub pending: bool,
}
