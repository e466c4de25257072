//! How many objects there are, and the bytes of their blocks.
ghost use Rattle.std.specs.Prelude.{◌≡◌, ◌==◌, Contains, filter, length, map, sum};
ghost use Rattle.gt_types.specs.declared.program.Program.{Program};
ghost use Rattle.gt_layout.specs.declared.planes.Layouts.{Layouts};
ghost use Rattle.gt_pages.specs.Ledger.{sizes};
ghost use Rattle.gt_graph.specs.Good.{Heap};
ghost use Rattle.gt_graph.specs.Places.{ledger_of};
ghost use Rattle.gt_objects.specs.Holding.{IsHeapOf};

use crate::objects::Objects;

impl Objects {
    /// How many objects there are whose blocks have this size in bytes, one of the listed ones. It takes constant time.
    pub fn count(&self, size: u32) -> u32
        requires listed { Contains sizes size }
        ensures count { (program : Program) (layouts : Layouts) (heap : Heap) → IsHeapOf program layouts self.now heap → result ≡ length (filter (λ b. b.size == size) (ledger_of heap.places).blocks) }
    {
        self.pages.count(size)
    }

    /// How many objects there are. It takes constant time.
    pub fn len(&self) -> u32
        ensures len { (program : Program) (layouts : Layouts) (heap : Heap) → IsHeapOf program layouts self.now heap → result ≡ length heap.graph.objects }
    {
        self.pages.len()
    }

    /// The bytes of all blocks. It takes constant time.
    pub fn allocated(&self) -> u64
        ensures bytes { (program : Program) (layouts : Layouts) (heap : Heap) → IsHeapOf program layouts self.now heap → result ≡ sum (map (λ b. b.size) (ledger_of heap.places).blocks) }
    {
        self.pages.bytes()
    }

    /// How many pages the image takes up; none before the first load.
    pub fn image_pages(&self) -> u32
        ensures image { (program : Program) (layouts : Layouts) (heap : Heap) → IsHeapOf program layouts self.now heap → result ≡ heap.places.image.count }
    {
        self.pages.image_pages()
    }
}
