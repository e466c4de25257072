use crate::kinds::Kind;
use gt_items::Stars;

/// A typedef of something after stars.
#[derive(Clone, Copy, Debug)]
pub struct Link {
    pub stars: Stars,
    pub to: Target,
}

/// What a typedef is of: a type that is no name of a typedef, or another typedef, by its place.
#[derive(Clone, Copy, Debug)]
pub enum Target {
    End(Kind),
    Next(usize),
}
