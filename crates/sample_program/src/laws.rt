//! What holds of the sample. The call does nothing: its clause is a law.
ghost use Rattle.gt_types.specs.Settled.{Settled};
ghost use Rattle.sample_program.specs.Sample.{sample};

/// The sample is a settled program.
pub fn sample_is_settled()
    ensures { Settled sample }
{}
