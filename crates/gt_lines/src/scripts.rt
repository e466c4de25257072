// A whole script.
ghost use Rattle.std.specs.Prelude.{◌≡◌, ◌≤◌, [], All};
ghost use Rattle.gt_io.specs.Counts.{Rose};
ghost use Rattle.gt_next.specs.States.{State};
ghost use Rattle.gt_session.specs.Sessions.{StandsFor, IsSession};
ghost use Rattle.gt_next.specs.Laws.{IsBuilt};
ghost use Rattle.gt_lines.specs.Scripts.{RunsScript};
ghost use Rattle.gt_lines.specs.Calls.{SinkCalls};

use crate::lines::{LinesEnd, run_lines};
use gt_answers::Answers;
use gt_io::{Files, Sink};
use gt_script::Line;
use gt_session::Session;
use gt_space::Space;
use std::alloc::Global;

/// Runs the lines of a script from a session, and leaves its bytes in the space. If memory runs out before the first answer, the space is
/// as it came.
pub fn run_script<F: Files, K: Sink>(
    alloc: Global,
    session: Session,
    files: &mut F,
    out: &mut K,
    space: &mut Space,
    answers: &mut Answers,
    lines: &[Line],
) -> LinesEnd
    requires session { IsSession session }
    requires built { All (λ line. IsBuilt line.command) lines.now }
    requires none_yet { answers.old.items ≡ [] }
    ensures ran { (state : State) → StandsFor session (F.told files.old) state
        → RunsScript session.schema.program session.schema.layouts lines.now state answers.new.items (K.written out.old) (K.written out.new) space.old space.new result }
    ensures calls { SinkCalls K.writes out.old lines.now answers.new.items out.new result }
    ensures files { files.new ≡ files.old }
    ensures later { K.faults out.old ≤ K.faults out.new }
    ensures cause { result ≡ LinesEnd.SinkFailed → Rose (K.faults out.old) (K.faults out.new) }
{
    let mut session = session;
    let end = run_lines(alloc, &mut session, files, out, answers, lines);
    let bytes = session.into_space();
    if end == LinesEnd::NoMemory && answers.is_empty() {
        return end;
    }
    *space = bytes;
    end
}
