// The one line that is written where no command is run.
ghost use Rattle.std.specs.Prelude.{◌≡◌, ◌≤◌};
ghost use Rattle.gt_io.specs.Counts.{Rose};
ghost use Rattle.gt_run.specs.Outputs.{output};
ghost use Rattle.gt_run.specs.Refusing.{Refuses};

use crate::ending::Ending;
use gt_front::Refusal;
use gt_io::{Sink, WriteFail};

/// Writes the line of a refusal, by one call of the sink.
pub fn refuse<K: Sink>(refusal: Refusal, line: &[u8], out: &mut K) -> Ending
    ensures refused { Refuses refusal line.now (output K.writes K.written out.old out.new) result }
    ensures later { K.faults out.old ≤ K.faults out.new }
    ensures cause { result ≡ Ending.SinkFailed → Rose (K.faults out.old) (K.faults out.new) }
{
    match out.write_all(line) {
        Ok(()) => Ending::Refused(refusal),
        Err(WriteFail::Failed) => Ending::SinkFailed,
        Err(WriteFail::Memory) => Ending::NoMemory,
    }
}
