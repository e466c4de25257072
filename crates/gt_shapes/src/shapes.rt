// Which structures contain which by value, and which are of a tail type.
ghost use Rattle.std.specs.Prelude.{IfOk};
ghost use Rattle.gt_shapes.specs.Cycles.{AreShapesFor};

use crate::containment::{containments, cyclic, too_deep};
use crate::tails::tail_types;
use gt_drafts::DraftStructure;
use std::alloc::{AllocError, Global};

/// For each structure: whether it contains itself by value, which may be left unsaid where one that is too deep stands before it; whether it is too
/// deep; and whether it is of a tail type.
#[derive(Drop)]
pub struct Shapes {
    pub cyclic: Vec<bool>,
    pub deep: Vec<bool>,
    pub tails: Vec<bool>,
}

/// The shapes of structures.
pub fn shapes_of(alloc: Global, structures: &[DraftStructure]) -> Result<Shapes, AllocError>
    ensures shapes { IfOk result (λ s. AreShapesFor structures.now s.cyclic.items s.deep.items s.tails.items) }
{
    let graph = containments(alloc, structures)?;
    let deep = too_deep(alloc, &graph)?;
    let cyclic = cyclic(alloc, &graph, structures, &deep)?;
    let tails = tail_types(alloc, structures)?;
    Ok(Shapes {
        cyclic,
        deep,
        tails,
    })
}
