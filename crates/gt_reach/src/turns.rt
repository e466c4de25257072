// The marking of a collection: the roots first, and then the pairs of caches, each when its turn comes.
ghost use Rattle.std.specs.Prelude.{◌≡◌, ◌<◌, ℕ, List, [], Some, length, slice_get, take};
ghost use Rattle.gt_types.specs.declared.types.TypeId.{TypeId};
ghost use Rattle.gt_graph.specs.Good.{Heap, IsSingle};
ghost use Rattle.gt_objects.specs.Holding.{IsHeapOf};
ghost use Rattle.gt_schema.specs.Schemas.{IsSchema};
ghost use Rattle.gt_caches.specs.Pairs.{Entry, pairs_of};
ghost use Rattle.gt_reach.specs.Marking.{IsKept};
ghost use Rattle.gt_reach.specs.Following.{CachesHadTurns, HadTurns, IsTraced, TakesTurn};

use crate::marking::{mark_from_roots, mark_from_value};
use gt_caches::{Caches, Pair};
use gt_objects::Objects;
use gt_schema::Schema;

// Says whether a pair stays, as it does if its key is marked when its turn comes. What its value reaches is then marked too.
fn follow_pair(schema: &Schema, objects: &mut Objects, pair: Pair, rounds: &mut u32) -> bool
    requires schema { IsSchema schema.now }
    requires ready { (heap : Heap) × (values : List ℕ) × (key value : TypeId) × IsHeapOf schema.now.program schema.now.layouts objects.old heap × IsTraced schema.now.program schema.now.tables heap values objects.old rounds.old
        × IsSingle heap.graph.objects pair.key key × IsSingle heap.graph.objects pair.value value }
    ensures turn { (heap : Heap) (values : List ℕ) (key value : TypeId) → IsHeapOf schema.now.program schema.now.layouts objects.old heap → IsTraced schema.now.program schema.now.tables heap values objects.old rounds.old
        → IsSingle heap.graph.objects pair.key key → IsSingle heap.graph.objects pair.value value
        → TakesTurn schema.now.program schema.now.tables heap values pair.key pair.value objects.new rounds.new result }
    ensures heap { (heap : Heap) → IsHeapOf schema.now.program schema.now.layouts objects.old heap → IsHeapOf schema.now.program schema.now.layouts objects.new heap }
    ensures bytes { objects.new.space ≡ objects.old.space }
{
    if !objects.marked(pair.key) {
        return false;
    }
    *rounds = mark_from_value(schema, objects, pair.value, *rounds);
    true
}

// Gives each pair of a cache its turn, in order, and says of each whether it stays.
fn follow_pairs(
    schema: &Schema,
    objects: &mut Objects,
    caches: &mut Caches,
    cache: usize,
    rounds: &mut u32,
)
    requires schema { IsSchema schema.now }
    requires there { cache < length caches.old }
    requires ready { (heap : Heap) × (values : List ℕ) × IsHeapOf schema.now.program schema.now.layouts objects.old heap × (heap.graph.pairs ≡ pairs_of caches.old)
        × IsTraced schema.now.program schema.now.tables heap values objects.old rounds.old }
    ensures turns { (heap : Heap) (values : List ℕ) (entries : List Entry) → IsHeapOf schema.now.program schema.now.layouts objects.old heap → heap.graph.pairs ≡ pairs_of caches.old
        → IsTraced schema.now.program schema.now.tables heap values objects.old rounds.old → slice_get caches.new cache ≡ Some entries → HadTurns schema.now.program schema.now.tables heap values entries objects.new rounds.new }
    ensures before { take cache caches.new ≡ take cache caches.old }
    ensures pairs { pairs_of caches.new ≡ pairs_of caches.old }
    ensures heap { (heap : Heap) → IsHeapOf schema.now.program schema.now.layouts objects.old heap → IsHeapOf schema.now.program schema.now.layouts objects.new heap }
    ensures bytes { objects.new.space ≡ objects.old.space }
{
    for i in 0..caches.len() {
        let Some(pair) = caches.get(cache, i) else {
            return;
        };
        let stays = follow_pair(schema, objects, pair, rounds);
        caches.decide(cache, i, stays);
    }
}

// Gives the pairs of each cache their turns, in the order of the caches.
fn follow_caches(schema: &Schema, objects: &mut Objects, caches: &mut Caches, rounds: &mut u32)
    requires schema { IsSchema schema.now }
    requires ready { (heap : Heap) × (values : List ℕ) × IsHeapOf schema.now.program schema.now.layouts objects.old heap × (heap.graph.pairs ≡ pairs_of caches.old)
        × IsTraced schema.now.program schema.now.tables heap values objects.old rounds.old }
    ensures turns { (heap : Heap) (values : List ℕ) → IsHeapOf schema.now.program schema.now.layouts objects.old heap → heap.graph.pairs ≡ pairs_of caches.old
        → IsTraced schema.now.program schema.now.tables heap values objects.old rounds.old → CachesHadTurns schema.now.program schema.now.tables heap values caches.new objects.new rounds.new }
    ensures pairs { pairs_of caches.new ≡ pairs_of caches.old }
    ensures heap { (heap : Heap) → IsHeapOf schema.now.program schema.now.layouts objects.old heap → IsHeapOf schema.now.program schema.now.layouts objects.new heap }
    ensures bytes { objects.new.space ≡ objects.old.space }
{
    for cache in 0..schema.program.caches.len() {
        follow_pairs(schema, objects, caches, cache, rounds);
    }
}

/// Marks the objects that a collection keeps, and no others: those that are reached from the roots that are not deletable; then, for each
/// cache in the order of declaration and each of its pairs in order, if the key is marked, the pair stays, and what its value reaches is
/// marked too. Says of each pair whether it stays. Gives the rounds, a number within bounds (`AreRounds`): one, and one more for each pass of
/// the marker over blocks for which its stack of 64 had no room. It takes no memory. Its time is linear in the elements and rows that are
/// walked, in the pairs, in the pages in use, and for each pass in the pages that it goes over.
pub fn mark_kept(schema: &Schema, objects: &mut Objects, caches: &mut Caches) -> u32
    requires schema { IsSchema schema.now }
    requires ready { (heap : Heap) × IsHeapOf schema.now.program schema.now.layouts objects.old heap × (heap.graph.pairs ≡ pairs_of caches.old) }
    ensures kept { (heap : Heap) → IsHeapOf schema.now.program schema.now.layouts objects.old heap → heap.graph.pairs ≡ pairs_of caches.old → IsKept schema.now.program objects.new caches.new heap result }
    ensures pairs { pairs_of caches.new ≡ pairs_of caches.old }
    ensures heap { (heap : Heap) → IsHeapOf schema.now.program schema.now.layouts objects.old heap → IsHeapOf schema.now.program schema.now.layouts objects.new heap }
    ensures bytes { objects.new.space ≡ objects.old.space }
{
    let mut rounds = mark_from_roots(schema, objects);
    follow_caches(schema, objects, caches, &mut rounds);
    rounds
}
