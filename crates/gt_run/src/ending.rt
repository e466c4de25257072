use gt_front::Refusal;
use gt_lines::LinesEnd;

/// How the program ends.
#[derive(Clone, Copy, Debug, PartialEq, Eq)]
pub enum Ending {
    /// Every line was answered.
    Finished,
    /// No line was run.
    Refused(Refusal),
    /// The sink failed.
    SinkFailed,
    /// Memory ran out.
    NoMemory,
}

impl Ending {
    ghost use Rattle.std.specs.Prelude.{◌≡◌};
    ghost use Rattle.gt_run.specs.Endings.{ending_of};

    /// The ending of a script whose lines end so.
    pub fn of(end: LinesEnd) -> Ending
        ensures { result ≡ ending_of end }
    {
        match end {
            LinesEnd::Finished => Ending::Finished,
            LinesEnd::SinkFailed => Ending::SinkFailed,
            LinesEnd::NoMemory => Ending::NoMemory,
        }
    }
}
