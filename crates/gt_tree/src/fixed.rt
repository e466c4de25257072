//! A value is fixed by the bytes that stand for it. These calls do nothing: their clauses are laws.
ghost use Rattle.gt_types.specs.declared.program.Program.{Program};
ghost use Rattle.gt_types.specs.Settled.{Settled};
ghost use Rattle.gt_layout.specs.declared.planes.Layouts.{Layouts};
ghost use Rattle.gt_layout.specs.Planes.{IsLaidOut};
ghost use Rattle.gt_tree.specs.FixedLaws.{LeavesAreRead, NumbersAreFixed, ValueIsFixed, ElementsAreFixed, RecordIsFixed};

/// Each leaf is read at its place in the bytes that stand for all of them, wherever no two share a bit.
pub fn leaves_are_read()
    ensures { LeavesAreRead }
{}

/// A number is fixed by as many bits as it has room in.
pub fn numbers_are_fixed()
    ensures { NumbersAreFixed }
{}

/// A value is fixed by the bytes that stand for it: two values that fit one type of element, for which the same bytes stand, are
/// one value. So it is for as many elements, one after another, and for the static record.
pub fn values_are_fixed()
    ensures value { (program : Program) (layouts : Layouts) → Settled program → IsLaidOut program layouts → ValueIsFixed program layouts }
    ensures elements { (program : Program) (layouts : Layouts) → Settled program → IsLaidOut program layouts → ElementsAreFixed program layouts }
    ensures statics { (program : Program) (layouts : Layouts) → Settled program → IsLaidOut program layouts → RecordIsFixed program layouts }
{}
