//! What follows from the words of the contracts. These calls do nothing: their clauses are laws.
ghost use Rattle.gt_types.specs.declared.program.Program.{Program};
ghost use Rattle.gt_types.specs.Settled.{Settled};
ghost use Rattle.gt_layout.specs.declared.planes.Layouts.{Layouts};
ghost use Rattle.gt_layout.specs.Planes.{IsLaidOut};
ghost use Rattle.gt_layout.specs.Laws.{HasOneLayout, PlacesHold, SizesGrow};

/// Each settled program has exactly one layout.
pub fn one_layout()
    ensures { (program : Program) → Settled program → HasOneLayout program }
{}

/// In a layout each field is aligned and ends inside its structure. The fields of a struct lie in rising order, and no two of
/// them share a bit. A bit-field does not cross its storage unit.
pub fn places()
    ensures { (program : Program) (layouts : Layouts) → Settled program → IsLaidOut program layouts → PlacesHold program layouts }
{}

/// With room for elements at its end a structure takes the least multiple of its alignment that is neither below its size without room
/// nor below the end of the last element of an array with a length inside it.
pub fn sizes_grow()
    ensures { (program : Program) (layouts : Layouts) → Settled program → IsLaidOut program layouts → SizesGrow program layouts }
{}
