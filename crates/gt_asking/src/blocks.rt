// The elements of an object.
ghost use Rattle.std.specs.Prelude.{◌≡◌, [], ◌∷◌, IfOk, Some};
ghost use Rattle.gt_tree.specs.Trees.{part_at};
ghost use Rattle.gt_value.specs.Values.{tree_of};
ghost use Rattle.gt_graph.specs.Objects.{Object, object_of};
ghost use Rattle.gt_graph.specs.Good.{Heap};
ghost use Rattle.gt_objects.specs.Holding.{IsHeapOf};
ghost use Rattle.gt_schema.specs.Schemas.{IsSchema};
ghost use Rattle.gt_asking.specs.Finding.{HasElement, HasElements, AreElements};

use gt_elements::element;
use gt_objects::Objects;
use gt_schema::Schema;
use gt_value::{Value, read};
use std::alloc::{AllocError, Global};

// The value of the element at a place of an object.
fn read_element(
    alloc: Global,
    schema: &Schema,
    objects: &Objects,
    addr: u64,
    place: u32,
) -> Result<Value, AllocError>
    requires schema { IsSchema schema.now }
    requires ready { (heap : Heap) × IsHeapOf schema.now.program schema.now.layouts objects.now heap }
    requires there { (heap : Heap) → IsHeapOf schema.now.program schema.now.layouts objects.now heap → HasElement heap addr place }
    ensures value { IfOk result (λ v. (heap : Heap) (o : Object) → IsHeapOf schema.now.program schema.now.layouts objects.now heap → object_of heap.graph.objects addr ≡ Some o → part_at o.value (place ∷ []) ≡ Some (tree_of v)) }
{
    let Some(here) = element(objects, &schema.program, &schema.layouts, addr, place) else {
        unreachable!()
    };
    let ty = schema.types.get(here.kind);
    read(
        alloc,
        &schema.program,
        &schema.layouts,
        objects.space(),
        ty,
        here.addr,
        here.capacity,
    )
}

/// The values of the elements of an object, which are so many.
pub fn read_elements(
    alloc: Global,
    schema: &Schema,
    objects: &Objects,
    addr: u64,
    count: u32,
) -> Result<Vec<Value>, AllocError>
    requires schema { IsSchema schema.now }
    requires ready { (heap : Heap) × IsHeapOf schema.now.program schema.now.layouts objects.now heap }
    requires there { (heap : Heap) → IsHeapOf schema.now.program schema.now.layouts objects.now heap → HasElements heap addr count }
    ensures elements { IfOk result (λ values. AreElements schema.now.program schema.now.layouts objects.now addr count values.items) }
{
    let mut values = Vec::new(alloc);
    for place in 0..count {
        let value = read_element(alloc, schema, objects, addr, place)?;
        values.push(value)?;
    }
    Ok(values)
}
