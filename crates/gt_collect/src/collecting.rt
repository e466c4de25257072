// A collection.
ghost use Rattle.std.specs.Prelude.{◌≡◌, ℕ, length};
ghost use Rattle.gt_graph.specs.Good.{Heap};
ghost use Rattle.gt_objects.specs.Holding.{IsHeapOf};
ghost use Rattle.gt_objects.specs.Marks.{marked_in};
ghost use Rattle.gt_schema.specs.Schemas.{IsSchema};
ghost use Rattle.gt_caches.specs.Pairs.{pairs_of};
ghost use Rattle.gt_reach.specs.Marking.{IsKept};
ghost use Rattle.gt_collect.specs.Answering.{Answers, LeavesBytes};
ghost use Rattle.gt_collect.specs.Clearing.{IsZeroedAt};
ghost use Rattle.gt_collect.specs.Collecting.{IsCollected};
ghost use Rattle.gt_collect.specs.Modes.{IsMode};

use crate::finishing::finish;
use crate::modes::Mode;
use gt_caches::Caches;
use gt_objects::Objects;
use gt_reach::mark_kept;
use gt_schema::Schema;

/// What a collection did: how many objects it kept, how many it freed, how many pairs it dropped, and the rounds of its marking, a number
/// within bounds (`AreRounds`).
#[derive(Clone, Copy, Debug, PartialEq, Eq)]
pub struct Collected {
    pub kept: u32,
    pub freed: u32,
    pub dropped: u32,
    pub rounds: u32,
}

/// What `collect` did.
#[derive(Clone, Copy, Debug, PartialEq, Eq)]
pub enum CollectAnswer {
    /// Fewer bytes are allocated than the threshold of the mode, and nothing changed.
    Skipped,
    /// A collection ran.
    Collected(Collected),
}

/// Skips where fewer bytes are allocated than the threshold of the mode, and changes nothing then, no mark either. Else it frees the objects
/// that are not kept (`After`): those that are reached neither from a root that is not deletable nor from the value of a pair that stays.
/// It drops the pairs that do not stay, and makes the pointers of deletable roots null. It takes no memory. Its time is that of `mark_kept`
/// of gt_reach and of `finish`; where it skips, constant.
pub fn collect(
    schema: &Schema,
    objects: &mut Objects,
    caches: &mut Caches,
    mode: Mode,
) -> CollectAnswer
    requires schema { IsSchema schema.now }
    requires ready { (heap : Heap) × IsHeapOf schema.now.program schema.now.layouts objects.old heap × (heap.graph.pairs ≡ pairs_of caches.old) }
    requires mode { IsMode mode }
    ensures collected { (heap : Heap) → IsHeapOf schema.now.program schema.now.layouts objects.old heap → heap.graph.pairs ≡ pairs_of caches.old
        → (new : Heap) × IsHeapOf schema.now.program schema.now.layouts objects.new new × (new.graph.pairs ≡ pairs_of caches.new) × Answers schema.now.program heap mode new result }
    ensures skipped { result ≡ CollectAnswer.Skipped → (objects.new ≡ objects.old) × (caches.new ≡ caches.old) }
    ensures bytes { LeavesBytes schema.now.tables.deletable result objects.old.space objects.new.space }
{
    if objects.allocated() < mode.threshold() {
        return CollectAnswer::Skipped;
    }
    CollectAnswer::Collected(collect_now(schema, objects, caches))
}

// Collects, however many bytes are allocated.
fn collect_now(schema: &Schema, objects: &mut Objects, caches: &mut Caches) -> Collected
    requires schema { IsSchema schema.now }
    requires ready { (heap : Heap) × IsHeapOf schema.now.program schema.now.layouts objects.old heap × (heap.graph.pairs ≡ pairs_of caches.old) }
    ensures collected { (heap : Heap) → IsHeapOf schema.now.program schema.now.layouts objects.old heap → heap.graph.pairs ≡ pairs_of caches.old
        → (new : Heap) × IsHeapOf schema.now.program schema.now.layouts objects.new new × (new.graph.pairs ≡ pairs_of caches.new) × IsCollected schema.now.program heap new result.kept result.freed result.dropped result.rounds }
    ensures bytes { IsZeroedAt schema.now.tables.deletable objects.old.space objects.new.space }
{
    let rounds = mark_kept(schema, objects, caches);
    let end = finish(schema, objects, caches);
    Collected {
        kept: end.kept,
        freed: end.freed,
        dropped: end.dropped,
        rounds,
    }
}

/// Marks the objects that a collection would keep, and no others, says of each pair whether it would stay, and changes nothing else. Gives
/// how many objects are marked. It takes no memory.
pub fn keep_marks(schema: &Schema, objects: &mut Objects, caches: &mut Caches) -> u32
    requires schema { IsSchema schema.now }
    requires ready { (heap : Heap) × IsHeapOf schema.now.program schema.now.layouts objects.old heap × (heap.graph.pairs ≡ pairs_of caches.old) }
    ensures kept { (heap : Heap) → IsHeapOf schema.now.program schema.now.layouts objects.old heap → heap.graph.pairs ≡ pairs_of caches.old
        → (rounds : ℕ) × IsKept schema.now.program objects.new caches.new heap rounds }
    ensures count { (heap : Heap) → IsHeapOf schema.now.program schema.now.layouts objects.old heap → heap.graph.pairs ≡ pairs_of caches.old → result ≡ length (marked_in objects.new heap.graph.objects) }
    ensures pairs { pairs_of caches.new ≡ pairs_of caches.old }
    ensures heap { (heap : Heap) → IsHeapOf schema.now.program schema.now.layouts objects.old heap → IsHeapOf schema.now.program schema.now.layouts objects.new heap }
    ensures bytes { objects.new.space ≡ objects.old.space }
{
    mark_kept(schema, objects, caches);
    objects.marked_len()
}
