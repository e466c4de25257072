// What the roots and the values of pairs reach, marked.
ghost use Rattle.std.specs.Prelude.{◌≡◌, ℕ, List, [], ◌∷◌};
ghost use Rattle.gt_types.specs.declared.types.TypeId.{TypeId};
ghost use Rattle.gt_graph.specs.Good.{Heap, IsSingle};
ghost use Rattle.gt_objects.specs.Holding.{IsHeapOf};
ghost use Rattle.gt_schema.specs.Schemas.{IsSchema};
ghost use Rattle.gt_reach.specs.Following.{IsTraced};

use gt_objects::Objects;
use gt_schema::Schema;
use gt_value::BlockKind;

/// Marks the objects that are reached from the roots that are not deletable, and no others. Gives the rounds.
pub fn mark_from_roots(schema: &Schema, objects: &mut Objects) -> u32
    requires schema { IsSchema schema.now }
    requires ready { (heap : Heap) × IsHeapOf schema.now.program schema.now.layouts objects.old heap }
    ensures traced { (heap : Heap) → IsHeapOf schema.now.program schema.now.layouts objects.old heap → IsTraced schema.now.program schema.now.tables heap [] objects.new result }
    ensures heap { (heap : Heap) → IsHeapOf schema.now.program schema.now.layouts objects.old heap → IsHeapOf schema.now.program schema.now.layouts objects.new heap }
    ensures bytes { objects.new.space ≡ objects.old.space }
{
    objects.clear_marks();
    objects.sound();
    objects.mark_roots(&schema.tables)
}

/// Marks besides what the value of a pair reaches, where the marking so far took these rounds. Gives the rounds of both.
pub fn mark_from_value(schema: &Schema, objects: &mut Objects, addr: u64, rounds: u32) -> u32
    requires schema { IsSchema schema.now }
    requires ready { (heap : Heap) × (values : List ℕ) × (node : TypeId) × IsHeapOf schema.now.program schema.now.layouts objects.old heap × IsTraced schema.now.program schema.now.tables heap values objects.old rounds
        × IsSingle heap.graph.objects addr node }
    ensures traced { (heap : Heap) (values : List ℕ) (node : TypeId) → IsHeapOf schema.now.program schema.now.layouts objects.old heap → IsTraced schema.now.program schema.now.tables heap values objects.old rounds
        → IsSingle heap.graph.objects addr node → IsTraced schema.now.program schema.now.tables heap (addr ∷ values) objects.new result }
    ensures heap { (heap : Heap) → IsHeapOf schema.now.program schema.now.layouts objects.old heap → IsHeapOf schema.now.program schema.now.layouts objects.new heap }
    ensures bytes { objects.new.space ≡ objects.old.space }
{
    let Some(known) = objects.known(addr) else {
        unreachable!()
    };
    let BlockKind::Nodes(node) = known.kind else {
        unreachable!()
    };
    let more = objects.mark_from(&schema.tables, addr, node.0, known.count);
    rounds.saturating_add(more - 1)
}
