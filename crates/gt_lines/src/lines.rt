// The lines of a script, one after another.
ghost use Rattle.std.specs.Prelude.{◌≡◌, ◌≤◌, [], All, IsErrOf};
ghost use Rattle.gt_io.specs.Counts.{Rose};
ghost use Rattle.gt_next.specs.States.{State};
ghost use Rattle.gt_session.specs.Sessions.{StandsFor, IsSession};
ghost use Rattle.gt_next.specs.Laws.{IsBuilt};
ghost use Rattle.gt_lines.specs.Lines.{RunsLine};
ghost use Rattle.gt_lines.specs.Calls.{LineCalls, SinkCalls};
ghost use Rattle.gt_lines.specs.Runs.{RunsLines};

use gt_answers::{Answers, text};
use gt_io::{Files, Sink, WriteFail};
use gt_script::Line;
use gt_session::Session;
use gt_steps::step;
use std::alloc::Global;

/// How a script's lines end.
#[derive(Clone, Copy, Debug, PartialEq, Eq)]
pub enum LinesEnd {
    /// Every line was answered.
    Finished,
    /// The sink failed.
    SinkFailed,
    /// Memory ran out.
    NoMemory,
}

/// Why a line was not done.
#[derive(Clone, Copy, Debug, PartialEq, Eq)]
pub enum LineStop {
    /// Memory ran out before the answer.
    NoAnswer,
    /// Memory ran out after the answer.
    NoText,
    /// The sink failed.
    NotWritten,
}

/// Answers one line and writes its text, where it has one.
pub fn run_line<F: Files, K: Sink>(
    alloc: Global,
    s: &mut Session,
    files: &mut F,
    out: &mut K,
    answers: &mut Answers,
    line: &Line,
) -> Result<(), LineStop>
    requires session { IsSession s.old }
    requires built { IsBuilt line.now.command }
    ensures ran { (state : State) → StandsFor s.old (F.told files.old) state
        → (t : State) × RunsLine s.old.schema.program s.old.schema.layouts line.now state t answers.old.items answers.new.items (K.written out.old) (K.written out.new) result × StandsFor s.new (F.told files.new) t }
    ensures calls { LineCalls K.writes out.old line.now answers.old.items answers.new.items out.new result }
    ensures session { IsSession s.new }
    ensures schema { s.new.schema ≡ s.old.schema }
    ensures files { files.new ≡ files.old }
    ensures later { K.faults out.old ≤ K.faults out.new }
    ensures cause { IsErrOf result LineStop.NotWritten → Rose (K.faults out.old) (K.faults out.new) }
{
    let Ok(()) = answers.reserve() else {
        return Err(LineStop::NoAnswer);
    };
    let Ok(answer) = step(alloc, s, files, line) else {
        return Err(LineStop::NoAnswer);
    };
    let text = text(alloc, line, &answer);
    answers.push_reserved(answer);
    let Ok(text) = text else {
        return Err(LineStop::NoText);
    };
    if text.is_empty() {
        return Ok(());
    }
    match out.write_all(text.as_slice()) {
        Ok(()) => Ok(()),
        Err(WriteFail::Failed) => Err(LineStop::NotWritten),
        Err(WriteFail::Memory) => Err(LineStop::NoText),
    }
}

/// Answers the lines in order, until one is not done.
pub fn run_lines<F: Files, K: Sink>(
    alloc: Global,
    s: &mut Session,
    files: &mut F,
    out: &mut K,
    answers: &mut Answers,
    lines: &[Line],
) -> LinesEnd
    requires session { IsSession s.old }
    requires built { All (λ line. IsBuilt line.command) lines.now }
    requires none_yet { answers.old.items ≡ [] }
    ensures ran { (state : State) → StandsFor s.old (F.told files.old) state
        → (t : State) × RunsLines s.old.schema.program s.old.schema.layouts lines.now state t answers.new.items (K.written out.old) (K.written out.new) result × StandsFor s.new (F.told files.new) t }
    ensures calls { SinkCalls K.writes out.old lines.now answers.new.items out.new result }
    ensures session { IsSession s.new }
    ensures schema { s.new.schema ≡ s.old.schema }
    ensures files { files.new ≡ files.old }
    ensures later { K.faults out.old ≤ K.faults out.new }
    ensures cause { result ≡ LinesEnd.SinkFailed → Rose (K.faults out.old) (K.faults out.new) }
{
    for line in lines {
        match run_line(alloc, s, files, out, answers, line) {
            Ok(()) => {}
            Err(LineStop::NotWritten) => return LinesEnd::SinkFailed,
            Err(LineStop::NoAnswer) => return LinesEnd::NoMemory,
            Err(LineStop::NoText) => return LinesEnd::NoMemory,
        }
    }
    LinesEnd::Finished
}
