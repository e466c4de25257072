// One leaf of a heap, written.
ghost use Rattle.std.specs.Prelude.{◌≡◌, Some, Err, OnOk, OnErr};
ghost use Rattle.gt_value.specs.declared.values.ValueFail.TheVariants.{Shape};
ghost use Rattle.gt_graph.specs.Good.{Heap};
ghost use Rattle.gt_objects.specs.Holding.{IsHeapOf};
ghost use Rattle.gt_elements.specs.Elements.{owner_of};
ghost use Rattle.gt_next.specs.Spots.{spot};
ghost use Rattle.gt_schema.specs.Schemas.{IsSchema};
ghost use Rattle.gt_writes.specs.SpotWrites.{SpotTakes, IsWrittenAt, MisfitsAt};
ghost use Rattle.gt_writes.specs.declared.found.Found.{Found};
ghost use Rattle.gt_writes.specs.FoundLeaves.{IsFoundAt};

use crate::elements::write_in_object;
use crate::found::Found;
use crate::roots::write_in_statics;
use gt_elements::Owner;
use gt_objects::Objects;
use gt_schema::Schema;
use gt_value::{LeafContent, ValueFail};
use std::alloc::Global;

/// Writes the leaf at a spot, which suits the value there. `Shape` says that no value fits with it. Where no expression reads the leaf and
/// each union around it has an active member, it takes no memory, and its time grows with the path, and for a string with its characters. At an error nothing changes.
/// `found` is where the leaf lies in an object, where it is known already.
pub fn write(
    alloc: Global,
    schema: &Schema,
    objects: &mut Objects,
    owner: Owner,
    path: &[u32],
    found: Option<Found>,
    leaf: LeafContent,
) -> Result<(), ValueFail>
    requires schema { IsSchema schema.now }
    requires ready { (heap : Heap) × IsHeapOf schema.now.program schema.now.layouts objects.old heap }
    requires may { (heap : Heap) → IsHeapOf schema.now.program schema.now.layouts objects.old heap → SpotTakes schema.now.program heap.graph (spot (owner_of owner) path.now) leaf }
    requires found { (f : Found) → found ≡ Some f → (heap : Heap) → IsHeapOf schema.now.program schema.now.layouts objects.old heap → IsFoundAt schema.now.program schema.now.layouts objects.old heap (owner_of owner) path.now f }
    ensures written { OnOk result ((heap : Heap) → IsHeapOf schema.now.program schema.now.layouts objects.old heap → IsWrittenAt schema.now.program schema.now.layouts heap (owner_of owner) path.now leaf objects.new) }
    ensures shape { result ≡ Err Shape → (heap : Heap) → IsHeapOf schema.now.program schema.now.layouts objects.old heap → MisfitsAt schema.now.program heap (owner_of owner) path.now leaf }
    ensures unchanged { OnErr result (objects.new ≡ objects.old) }
    ensures space { OnErr result (objects.new.space ≡ objects.old.space) }
{
    match owner {
        Owner::Statics => write_in_statics(alloc, schema, objects, path, leaf),
        Owner::Object(addr) => {
            let [place, rest @ ..] = path else {
                return Err(ValueFail::Shape);
            };
            write_in_object(alloc, schema, objects, addr, *place, rest, found, leaf)
        }
    }
}
