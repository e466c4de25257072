//! A value has one text, and so have a block and the static record. This call does nothing: its clause is a law.
ghost use Rattle.gt_types.specs.Settled.{Settled};
ghost use Rattle.gt_types.specs.declared.program.Program.{Program};
ghost use Rattle.gt_show.specs.Shown.{TextIsOne};
ghost use Rattle.gt_show.specs.BlockTexts.{BlockTextIsOne};
ghost use Rattle.gt_show.specs.StaticTexts.{StaticTextIsOne};

/// Two texts of one value of one type are one text, and so are two texts of one block, and of one static record.
pub fn shown_is_one()
    ensures values { (program : Program) → Settled program → TextIsOne program }
    ensures blocks { (program : Program) → Settled program → BlockTextIsOne program }
    ensures statics { (program : Program) → Settled program → StaticTextIsOne program }
{}
