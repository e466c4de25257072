// What follows from the definitions, for callers to cite. The functions do nothing.
ghost use Rattle.gt_tracing.specs.Laws.{HeapsAreTraced, CanBeMarked, MarksAreReached, RoundsAgree};

/// On the bytes of a heap the walks of its program give the edges of its objects and of its roots.
pub fn heaps_are_traced()
    ensures { HeapsAreTraced }
{}

/// Where no block is marked, the marker can begin at any objects of a heap.
pub fn heaps_can_be_marked()
    ensures { CanBeMarked }
{}

/// What the marker marks from the blocks that the roots name and from the values of some pairs are the objects that these reach.
pub fn marks_are_reached()
    ensures { MarksAreReached }
{}

/// Its rounds are rounds of a collection that keeps these objects.
pub fn rounds_agree()
    ensures { RoundsAgree }
{}
