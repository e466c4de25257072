//! Zero is one value, and a write has one result. These calls do nothing: their clauses are laws.
ghost use Rattle.gt_tree.specs.WriteLaws.{ZeroIsOne, ZeroRecordIsOne, WriteIsOne, RecordWriteIsOne};
ghost use Rattle.gt_types.specs.Settled.{Settled};
ghost use Rattle.gt_types.specs.declared.program.Program.{Program};

/// There is one zero value: two values of one type of element, at one capacity, whose leaves are all 0, null or zero bytes are
/// one value, whatever blocks there are beside each. So it is for the static record.
pub fn zero_is_one()
    ensures value { (program : Program) → Settled program → ZeroIsOne program }
    ensures statics { (program : Program) → Settled program → ZeroRecordIsOne program }
{}

/// A write has one result: two values that an element of a block may become, where one leaf of it is written, are one value. So it
/// is for the static record.
pub fn writes_are_one()
    ensures value { (program : Program) → Settled program → WriteIsOne program }
    ensures statics { (program : Program) → Settled program → RecordWriteIsOne program }
{}
