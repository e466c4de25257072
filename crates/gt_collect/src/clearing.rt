// The roots that a collection makes null.
ghost use Rattle.std.specs.Prelude.{◌≡◌};
ghost use Rattle.gt_graph.specs.Good.{Heap};
ghost use Rattle.gt_objects.specs.Holding.{IsHeapOf};
ghost use Rattle.gt_schema.specs.Schemas.{IsSchema};
ghost use Rattle.gt_collect.specs.Clearing.{IsZeroedAt};
ghost use Rattle.gt_collect.specs.Collecting.{cleared_heap};

use gt_objects::Objects;
use gt_schema::Schema;

/// Makes the pointers of deletable roots null. It takes no memory.
pub fn clear_roots(schema: &Schema, objects: &mut Objects)
    requires schema { IsSchema schema.now }
    requires ready { (heap : Heap) × IsHeapOf schema.now.program schema.now.layouts objects.old heap }
    ensures cleared { (heap : Heap) → IsHeapOf schema.now.program schema.now.layouts objects.old heap → IsHeapOf schema.now.program schema.now.layouts objects.new (cleared_heap schema.now.program heap) }
    ensures bytes { IsZeroedAt schema.now.tables.deletable objects.old.space objects.new.space }
    ensures pages { objects.new.pages ≡ objects.old.pages }
{
    objects.sound();
    for word in schema.tables.deletable.as_slice() {
        objects.clear_word(*word as u64);
    }
}
