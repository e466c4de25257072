// Elements of objects by their places.
ghost use Rattle.std.specs.Prelude.{◌<◌, Some};
ghost use Rattle.gt_types.specs.Settled.{Settled};
ghost use Rattle.gt_layout.specs.Planes.{IsLaidOut};
ghost use Rattle.gt_layout.specs.Excess.{IsWithin};
ghost use Rattle.gt_graph.specs.Good.{Heap};
ghost use Rattle.gt_objects.specs.Holding.{IsHeapOf};
ghost use Rattle.gt_objects.specs.Knowing.{IsKnownAt};
ghost use Rattle.gt_elements.specs.Elements.{IsElementAt};

use crate::parts::Element;
use gt_layout::Layouts;
use gt_objects::{Known, Objects, element_size};
use gt_types::Program;

/// The element at a place of the object at an address; None where there is no such element. It takes constant time.
pub fn element(
    objects: &Objects,
    program: &Program,
    layouts: &Layouts,
    addr: u64,
    place: u32,
) -> Option<Element>
    requires settled { Settled program.now }
    requires laid { IsLaidOut program.now layouts.now }
    requires within { IsWithin program.now layouts.now }
    requires ready { (heap : Heap) × IsHeapOf program.now layouts.now objects.now heap }
    ensures element { (heap : Heap) → IsHeapOf program.now layouts.now objects.now heap → IsElementAt program.now layouts.now heap objects.now.space addr place result }
{
    objects.sound();
    let known = objects.known(addr)?;
    if place >= known.count {
        return None;
    }
    Some(element_of(objects, program, layouts, addr, known, place))
}

/// The element at a place of the object at an address, of which this is known. It takes constant time.
pub fn element_of(
    objects: &Objects,
    program: &Program,
    layouts: &Layouts,
    addr: u64,
    known: Known,
    place: u32,
) -> Element
    requires settled { Settled program.now }
    requires laid { IsLaidOut program.now layouts.now }
    requires within { IsWithin program.now layouts.now }
    requires ready { (heap : Heap) × IsHeapOf program.now layouts.now objects.now heap }
    requires known { (heap : Heap) → IsHeapOf program.now layouts.now objects.now heap → IsKnownAt heap.graph.objects addr (Some known) }
    requires below { place < known.count }
    ensures element { (heap : Heap) → IsHeapOf program.now layouts.now objects.now heap → IsElementAt program.now layouts.now heap objects.now.space addr place (Some result) }
{
    objects.sound();
    if place == 0 {
        return Element::of(known, addr);
    }
    let size = element_size(program, layouts, known.kind, known.capacity);
    Element::of(known, addr + size * place as u64)
}
