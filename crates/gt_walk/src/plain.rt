// Rows to which the structures around tell nothing: pointers to blocks of a fixed count.
ghost use Rattle.std.specs.Prelude.{◌≡◌, ◌+◌, ◌-◌, ◌<◌, ◌^◌, length};
ghost use Rattle.gt_walk.specs.declared.rows.WalkRow.{out-WalkRow};
ghost use Rattle.gt_walk.specs.Rows.{word_at};
ghost use Rattle.gt_walk.specs.Sinks.{CanTake, Took};
ghost use Rattle.gt_walk.specs.Visiting.{is_plain, fixed_edges, plain_edges};

use crate::lengths::word_of;
use crate::{Count, EdgeSink, WalkRow};
use gt_space::Space;

// Whether a row is such a pointer.
#[inline(always)]
pub fn is_plain(row: &WalkRow) -> bool
    ensures { result ≡ is_plain (out-WalkRow row.now) }
{
    match row {
        WalkRow::Ptr { count, .. } => matches!(count, Count::Fixed(_)),
        _ => false,
    }
}

// A pointer that is not null is an edge. `words` is what `words_in` says of the space.
#[inline(always)]
fn visit_fixed<S: EdgeSink>(
    space: &Space,
    words: u64,
    place: u64,
    walk: u32,
    count: u32,
    sink: &mut S,
)
    requires words { words ≡ length space.now.bytes - 7 }
    requires near { place < 2 ^ 63 }
    requires can { CanTake S.takes S.leaves sink.old (fixed_edges place walk count (word_at space.now place)) }
    ensures took { Took S.leaves sink.old (fixed_edges place walk count (word_at space.now place)) sink.new }
{
    let Some(target) = word_of(space, words, place) else {
        return;
    };
    if target != 0 {
        sink.edge(place, target, walk, count);
    }
}

// The edges of a row at an address. `words` is what `words_in` says of the space.
#[inline(always)]
pub fn visit_plain_row<S: EdgeSink>(space: &Space, words: u64, row: &WalkRow, at: u64, sink: &mut S)
    requires words { words ≡ length space.now.bytes - 7 }
    requires near { at < 2 ^ 32 }
    requires can { CanTake S.takes S.leaves sink.old (plain_edges space.now at (out-WalkRow row.now)) }
    ensures took { Took S.leaves sink.old (plain_edges space.now at (out-WalkRow row.now)) sink.new }
{
    if let WalkRow::Ptr {
        offset,
        walk,
        count: Count::Fixed(n),
        ..
    } = row
    {
        visit_fixed(space, words, at + *offset as u64, *walk, *n, sink);
    }
}
