//! Where in a value the numbers lie that expressions read. These calls do nothing: their clauses are laws.
ghost use Rattle.gt_layout.specs.Planes.{IsLaidOut};
ghost use Rattle.gt_layout.specs.declared.planes.Layouts.{Layouts};
ghost use Rattle.gt_tree.specs.PathLaws.{PathsAreOne, PathsReadLeaves, ReadingIsSame};
ghost use Rattle.gt_types.specs.Settled.{Settled};
ghost use Rattle.gt_types.specs.declared.program.Program.{Program};

/// A path of names leads to one bit of a structure, and to one type: the program and its layouts alone fix them.
pub fn paths_are_one()
    ensures { (program : Program) (layouts : Layouts) → Settled program → PathsAreOne program layouts.structures }
{}

/// What a path reads from a value that fits is the number of the leaf that lies at the path's bit. It has room in the type there.
pub fn paths_read_leaves()
    ensures { (program : Program) (layouts : Layouts) → Settled program → IsLaidOut program layouts → PathsReadLeaves program layouts }
{}

/// An expression has the same value in two scopes whose leaves hold the same numbers.
pub fn reading_is_same()
    ensures { (program : Program) (layouts : Layouts) → Settled program → IsLaidOut program layouts → ReadingIsSame program layouts }
{}
