//! What follows for the bytes of a heap. These calls do nothing: their clauses are laws.
ghost use Rattle.gt_types.specs.declared.program.Program.{Program};
ghost use Rattle.gt_types.specs.Settled.{Settled};
ghost use Rattle.gt_layout.specs.declared.planes.Layouts.{Layouts};
ghost use Rattle.gt_layout.specs.Planes.{IsLaidOut};
ghost use Rattle.gt_layout.specs.Excess.{IsWithin};
ghost use Rattle.gt_space.specs.Range.{IsSpace};
ghost use Rattle.gt_graph.specs.Good.{Heap};
ghost use Rattle.gt_objects.specs.declared.objects.Objects.{Objects};
ghost use Rattle.gt_objects.specs.Holding.{IsHeapOf};
ghost use Rattle.gt_elements.specs.Elements.{RootsStand};
ghost use Rattle.gt_elements.specs.InHeap.{LeavesAreInHeap};

/// The static record of a heap lies in its space, and its bytes stand for the values of the roots beside the objects.
pub fn roots_stand_in_the_space()
    ensures { (program : Program) (layouts : Layouts) (objects : Objects) (heap : Heap) → Settled program → IsLaidOut program layouts → IsWithin program layouts
        → IsSpace objects.space → IsHeapOf program layouts objects heap → RootsStand program layouts objects heap }
{}

/// A leaf of an element that was written in place, in an object that holds no characters, is written in the heap.
pub fn leaves_in_place_are_in_the_heap()
    ensures { (program : Program) (layouts : Layouts) → Settled program → IsLaidOut program layouts → IsWithin program layouts → LeavesAreInHeap program layouts }
{}
