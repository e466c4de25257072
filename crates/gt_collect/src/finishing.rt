// The end of a collection whose marks stand.
ghost use Rattle.std.specs.Prelude.{◌≡◌};
ghost use Rattle.gt_graph.specs.Good.{Heap};
ghost use Rattle.gt_objects.specs.Holding.{IsHeapOf};
ghost use Rattle.gt_schema.specs.Schemas.{IsSchema};
ghost use Rattle.gt_caches.specs.Pairs.{pairs_of, staying};
ghost use Rattle.gt_collect.specs.Clearing.{IsZeroedAt};
ghost use Rattle.gt_collect.specs.Collecting.{AreCounted};
ghost use Rattle.gt_collect.specs.Finishing.{CanFinish, finished_heap};

use crate::clearing::clear_roots;
use gt_caches::Caches;
use gt_objects::Objects;
use gt_schema::Schema;

/// What the end of a collection did: how many objects it kept, how many it freed, and how many pairs it dropped.
#[derive(Clone, Copy, Debug, PartialEq, Eq)]
pub struct Finished {
    pub kept: u32,
    pub freed: u32,
    pub dropped: u32,
}

/// Ends a collection: frees the objects that are not marked, drops the pairs that do not stay, and makes the pointers of deletable roots
/// null. At least the objects that a collection keeps have to be marked, and all that marked objects point to (`CanFinish`). It takes no
/// memory. Its time is linear in the pages in use, the pairs and the pointers of deletable roots.
pub fn finish(schema: &Schema, objects: &mut Objects, caches: &mut Caches) -> Finished
    requires schema { IsSchema schema.now }
    requires ready { (heap : Heap) × IsHeapOf schema.now.program schema.now.layouts objects.old heap × (heap.graph.pairs ≡ pairs_of caches.old) × CanFinish schema.now.program objects.old caches.old heap }
    ensures heap { (heap : Heap) → IsHeapOf schema.now.program schema.now.layouts objects.old heap → heap.graph.pairs ≡ pairs_of caches.old → CanFinish schema.now.program objects.old caches.old heap
        → IsHeapOf schema.now.program schema.now.layouts objects.new (finished_heap schema.now.program objects.old caches.old heap) }
    ensures pairs { pairs_of caches.new ≡ staying caches.old }
    ensures bytes { IsZeroedAt schema.now.tables.deletable objects.old.space objects.new.space }
    ensures counts { (heap : Heap) → IsHeapOf schema.now.program schema.now.layouts objects.old heap → heap.graph.pairs ≡ pairs_of caches.old → CanFinish schema.now.program objects.old caches.old heap
        → AreCounted heap (finished_heap schema.now.program objects.old caches.old heap) result.kept result.freed result.dropped }
{
    clear_roots(schema, objects);
    let dropped = caches.keep_staying();
    let freed = objects.sweep();
    Finished {
        kept: objects.len(),
        freed,
        dropped,
    }
}
