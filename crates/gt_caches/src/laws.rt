//! A law of heaps: what the bytes, pages and directory of a heap are does not hang on its pairs. The call does nothing: its clause is a law.
ghost use Rattle.std.specs.Prelude.{◌≤◌, ℕ, List};
ghost use Rattle.std.specs.List.{AllZip};
ghost use Rattle.gt_types.specs.declared.program.Program.{Program};
ghost use Rattle.gt_layout.specs.declared.planes.Layouts.{Layouts};
ghost use Rattle.gt_graph.specs.Objects.{pairs_in};
ghost use Rattle.gt_graph.specs.Good.{Heap, MAX_PAIRS, ArePairsOf};
ghost use Rattle.gt_objects.specs.declared.objects.Objects.{Objects};
ghost use Rattle.gt_objects.specs.Holding.{IsHeapOf};
ghost use Rattle.gt_caches.specs.Pairs.{with_pairs};

/// A heap with other pairs, as a graph may have them, has the same bytes, pages and directory.
pub fn pairs_may_change()
    ensures { (program : Program) (layouts : Layouts) (objects : Objects) (heap : Heap) (pairs : List (List (ℕ × ℕ))) → IsHeapOf program layouts objects heap
        → AllZip (ArePairsOf heap.graph.objects) program.caches pairs → pairs_in pairs ≤ MAX_PAIRS → IsHeapOf program layouts objects (with_pairs heap pairs) }
{}
