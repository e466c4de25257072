//! When a leaf may be written in place. This call does nothing: its clauses are laws.
ghost use Rattle.gt_types.specs.declared.program.Program.{Program};
ghost use Rattle.gt_fit.specs.InPlace.{IsInPlace, AreInPlace};

/// Where the value with a leaf replaced fits, it is what the write of that leaf makes: so for an element of a block, and for the
/// static record.
pub fn fitting_leaves_are_written_in_place()
    ensures value { (program : Program) → IsInPlace program }
    ensures statics { (program : Program) → AreInPlace program }
{}
