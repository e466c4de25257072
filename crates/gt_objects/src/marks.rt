//! Marks of objects, and the freeing of those without one.
ghost use Rattle.std.specs.Prelude.{◌≡◌, ◌+◌, ℕ, [], ◌∷◌, Some, None, All, length};
ghost use Rattle.gt_types.specs.declared.program.Program.{Program};
ghost use Rattle.gt_types.specs.Settled.{Settled};
ghost use Rattle.gt_layout.specs.declared.planes.Layouts.{Layouts};
ghost use Rattle.gt_graph.specs.Objects.{Object, object_of};
ghost use Rattle.gt_graph.specs.Good.{Heap};
ghost use Rattle.gt_objects.specs.Holding.{IsHeapOf};
ghost use Rattle.gt_objects.specs.Marks.{is_marked, marked_in, swept, IsClosed};
ghost use Rattle.gt_mark.specs.Marks.{Marks};
ghost use Rattle.gt_mark.specs.Reached.{Walks, CanMark, NamesBlock, root_edges, root_targets};
ghost use Rattle.gt_mark.specs.Rounds.{AreRounds};

use crate::objects::Objects;
use gt_walk::Tables;

impl Objects {
    /// Takes all marks away, and releases the cached entries of pages.
    pub fn clear_marks(&mut self)
        ensures none { All (λ s. s.mark ≡ None) self.new.pages.slots }
        ensures heap { (program : Program) (layouts : Layouts) (heap : Heap) → IsHeapOf program layouts self.old heap → IsHeapOf program layouts self.new heap }
        ensures bytes { self.new.space ≡ self.old.space }
    {
        self.pages.clear_marks();
    }

    /// Marks the object at an address, which is walked by this walk with so many elements, and all objects that edges of walker tables
    /// reach from there. Gives the rounds. It takes no memory.
    pub fn mark_from(&mut self, tables: &Tables, addr: u64, walk: u32, count: u32) -> u32
        requires ready { (walks : Walks) × (walks addr ≡ record { walk = walk; count = count }) × CanMark tables.now self.old.space walks self.old.pages.slots (addr ∷ []) }
        ensures marked { (walks : Walks) → walks addr ≡ record { walk = walk; count = count } → CanMark tables.now self.old.space walks self.old.pages.slots (addr ∷ [])
            → Marks tables.now self.old.space walks (addr ∷ []) self.old.pages self.new.pages }
        ensures rounds { (walks : Walks) → walks addr ≡ record { walk = walk; count = count } → CanMark tables.now self.old.space walks self.old.pages.slots (addr ∷ [])
            → AreRounds tables.now self.old.space walks (addr ∷ []) self.old.pages.slots self.new.pages.slots result }
        ensures heap { (program : Program) (layouts : Layouts) (heap : Heap) → IsHeapOf program layouts self.old heap → IsHeapOf program layouts self.new heap }
        ensures bytes { self.new.space ≡ self.old.space }
    {
        self.pages.mark_from(tables, &self.space, addr, walk, count)
    }

    /// Marks the objects that roots name, and all objects that edges of walker tables reach from there. Gives the rounds. It takes no memory.
    pub fn mark_roots(&mut self, tables: &Tables) -> u32
        requires ready { (walks : Walks) × All (NamesBlock self.old.pages.slots walks) (root_edges tables.now self.old.space) × CanMark tables.now self.old.space walks self.old.pages.slots (root_targets tables.now self.old.space) }
        ensures marked { (walks : Walks) → All (NamesBlock self.old.pages.slots walks) (root_edges tables.now self.old.space) → CanMark tables.now self.old.space walks self.old.pages.slots (root_targets tables.now self.old.space)
            → Marks tables.now self.old.space walks (root_targets tables.now self.old.space) self.old.pages self.new.pages }
        ensures rounds { (walks : Walks) → All (NamesBlock self.old.pages.slots walks) (root_edges tables.now self.old.space) → CanMark tables.now self.old.space walks self.old.pages.slots (root_targets tables.now self.old.space)
            → AreRounds tables.now self.old.space walks (root_targets tables.now self.old.space) self.old.pages.slots self.new.pages.slots result }
        ensures heap { (program : Program) (layouts : Layouts) (heap : Heap) → IsHeapOf program layouts self.old heap → IsHeapOf program layouts self.new heap }
        ensures bytes { self.new.space ≡ self.old.space }
    {
        self.pages.mark_roots(tables, &self.space)
    }

    /// Whether the object at an address is marked.
    pub fn marked(&self, addr: u64) -> bool
        requires there { (program : Program) × (layouts : Layouts) × (heap : Heap) × (o : Object) × IsHeapOf program layouts self.now heap × (object_of heap.graph.objects addr ≡ Some o) }
        ensures marked { result ≡ is_marked self.now addr }
    {
        self.pages.is_marked(addr)
    }

    /// How many objects are marked. It takes no memory, and its time is linear in them and in the pages in use.
    pub fn marked_len(&self) -> u32
        ensures len { (program : Program) (layouts : Layouts) (heap : Heap) → IsHeapOf program layouts self.now heap → result ≡ length (marked_in self.now heap.graph.objects) }
    {
        self.pages.marked_len()
    }

    /// Frees the objects that are not marked, and says how many these were: all that marked objects, roots and pairs name has to be
    /// marked. It takes no memory.
    pub fn sweep(&mut self) -> u32
        requires ready { (program : Program) × (layouts : Layouts) × (heap : Heap) × Settled program × IsHeapOf program layouts self.old heap × IsClosed self.old heap.graph }
        ensures swept { (program : Program) (layouts : Layouts) (heap : Heap) → Settled program → IsHeapOf program layouts self.old heap → IsClosed self.old heap.graph → IsHeapOf program layouts self.new (swept self.old heap) }
        ensures freed { (program : Program) (layouts : Layouts) (heap : Heap) → IsHeapOf program layouts self.old heap → result + length (marked_in self.old heap.graph.objects) ≡ length heap.graph.objects }
        ensures bytes { self.new.space ≡ self.old.space }
    {
        self.pages.sweep()
    }
}
