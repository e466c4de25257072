// What is read at the end of a path.
ghost use Rattle.std.specs.Prelude.{◌≡◌, Some};
ghost use Rattle.gt_graph.specs.Good.{Heap};
ghost use Rattle.gt_objects.specs.Holding.{IsHeapOf};
ghost use Rattle.gt_next.specs.Spots.{Standing, standing_at};
ghost use Rattle.gt_routes.specs.Reaching.{spot_of, IsEndAt};
ghost use Rattle.gt_schema.specs.Schemas.{IsSchema};
ghost use Rattle.gt_asking.specs.Finding.{ReadsAs};

use gt_elements::Owner;
use gt_objects::Objects;
use gt_routes::{End, Reached};
use gt_schema::Schema;
use gt_value::{LeafContent, read_leaf};

/// What a place holds: a number, null, or the address of an object.
#[derive(Clone, Copy, Debug, PartialEq, Eq)]
pub enum Read {
    Number(i128),
    Null,
    Object(u64),
}

/// What is read where a path leads: the number there, null, the object to which the pointer there leads, or the object there. None where
/// the place is no leaf.
pub fn read_end(schema: &Schema, objects: &Objects, to: &Reached<'_>) -> Option<Read>
    requires schema { IsSchema schema.now }
    requires ready { (heap : Heap) × IsHeapOf schema.now.program schema.now.layouts objects.now heap }
    requires end { (heap : Heap) → IsHeapOf schema.now.program schema.now.layouts objects.now heap → IsEndAt schema.now.program schema.now.layouts objects.now heap (spot_of to.now) to.now.end }
    ensures read { (heap : Heap) (what : Standing) → IsHeapOf schema.now.program schema.now.layouts objects.now heap → standing_at schema.now.program heap.graph (spot_of to.now) ≡ Some what → ReadsAs what result }
{
    let cursor = match to.end {
        End::Object => {
            return match to.owner {
                Owner::Object(addr) => Some(Read::Object(addr)),
                Owner::Statics => None,
            };
        }
        End::Value(cursor) => cursor,
    };
    let Some(place) = cursor.leaf() else {
        return None;
    };
    match read_leaf(objects.space(), place) {
        LeafContent::Num(n) => Some(Read::Number(n)),
        LeafContent::Null => Some(Read::Null),
        LeafContent::To(addr) => Some(Read::Object(addr)),
    }
}
