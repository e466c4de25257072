//! The objects of a space.
ghost use Rattle.std.specs.Prelude.{◌≡◌, ◌≤◌, [], IfOk};
ghost use Rattle.gt_types.specs.declared.program.Program.{Program};
ghost use Rattle.gt_types.specs.Settled.{Settled};
ghost use Rattle.gt_layout.specs.declared.planes.Layouts.{Layouts};
ghost use Rattle.gt_layout.specs.Planes.{IsLaidOut};
ghost use Rattle.gt_space.specs.declared.TheConstants.{MIN_PAGES, MAX_PAGES, MAX_STATICS};
ghost use Rattle.gt_space.specs.Range.{IsSpace};
ghost use Rattle.gt_tree.specs.Trees.{Trees};
ghost use Rattle.gt_tree.specs.Fits.{IsZeroRecord};
ghost use Rattle.gt_graph.specs.Objects.{blocks_of};
ghost use Rattle.gt_graph.specs.Good.{Heap};
ghost use Rattle.gt_objects.specs.Knowing.{IsKnownAt};
ghost use Rattle.gt_objects.specs.Holding.{IsHeapOf, opening};
ghost use Rattle.gt_objects.specs.InBytes.{HasPlaces, known_in};

use crate::counted::CountedPages;
use gt_directory::Directory;
use gt_layout::Layouts;
use gt_space::Space;
use gt_value::BlockKind;
use std::alloc::{AllocError, Global};

/// What is known of an object: what it holds, how many elements, and for how many there is room at its end.
#[derive(Clone, Copy, Debug, PartialEq, Eq)]
pub struct Known {
    pub kind: BlockKind,
    pub count: u32,
    pub capacity: u32,
}

/// The objects of a space: the bytes of their values, their blocks, and what is known of each.
#[derive(Drop)]
pub struct Objects {
    pub(crate) space: Space,
    pub(crate) pages: CountedPages,
    pub(crate) directory: Directory<Known>,
}

impl Objects {
    /// A space of so many pages without objects, in which the values of the roots are zero. It fails only if memory runs out.
    pub fn new(alloc: Global, layouts: &Layouts, pages: u32) -> Result<Objects, AllocError>
        requires at_least { MIN_PAGES ≤ pages }
        requires at_most { pages ≤ MAX_PAGES }
        requires statics { layouts.now.statics.size ≤ MAX_STATICS }
        ensures opening { IfOk result (λ objects. (program : Program) (statics : Trees) → Settled program → IsLaidOut program layouts.now
            → IsZeroRecord program (blocks_of []) statics → IsHeapOf program layouts.now objects (opening program pages statics)) }
    {
        let mut space = Space::empty(alloc);
        space.resize_fresh(pages, layouts.statics.size)?;
        Ok(Objects {
            space,
            pages: CountedPages::new(alloc, pages)?,
            directory: Directory::new(alloc, pages)?,
        })
    }

    /// The bytes.
    pub fn space(&self) -> &Space
        ensures { result.now ≡ self.now.space }
    {
        &self.space
    }

    /// Gives the space back.
    pub fn into_space(self) -> Space
        ensures { result ≡ self.space }
    {
        self.space
    }

    /// The bytes lie in a space: a law, which does nothing.
    pub fn sound(&self)
        ensures space { IsSpace self.now.space }
    {
        let _ = self.space.start();
    }

    /// What is known of the object at an address; None where no object has this address.
    pub fn known(&self, addr: u64) -> Option<Known>
        requires ready { (program : Program) × (layouts : Layouts) × (heap : Heap) × IsHeapOf program layouts self.now heap }
        ensures known { (program : Program) (layouts : Layouts) (heap : Heap) → IsHeapOf program layouts self.now heap → IsKnownAt heap.graph.objects addr result }
    {
        self.known_block(addr)
    }

    /// What pages and directory know of the block that starts at an address; None where none does. It is what is known of the object
    /// there: where it is not yet said of which heap these are, this can be asked.
    pub fn known_block(&self, addr: u64) -> Option<Known>
        requires places { HasPlaces self.now }
        ensures known { result ≡ known_in self.now addr }
    {
        self.pages.sound();
        let (start, size) = self.pages.owner(addr)?;
        if start != addr {
            return None;
        }
        self.directory.get(addr, size)
    }
}
