// The program as one call.
ghost use Rattle.std.specs.Prelude.{◌≡◌, ◌≤◌, ◌⊎◌, ℕ, [], All, IfSome, List, None, Option, Some};
ghost use Rattle.gt_types.specs.Settled.{Settled};
ghost use Rattle.gt_layout.specs.Planes.{IsLaidOut};
ghost use Rattle.gt_layout.specs.Excess.{IsWithin};
ghost use Rattle.gt_space.specs.Range.{Range, empty_range};
ghost use Rattle.gt_io.specs.Counts.{Rose};
ghost use Rattle.gt_io.specs.Held.{Held};
ghost use Rattle.gt_words.specs.declared.call.Call.{Call};
ghost use Rattle.gt_words.specs.Calls.{call_of};
ghost use Rattle.gt_words.specs.Ranges.{IsInRange};
ghost use Rattle.gt_front.specs.Asks.{Asks};
ghost use Rattle.gt_front.specs.Order.{AskNoFile, FailsIn, HasRead, IsReadFor, Extent, extent_for, whole};
ghost use Rattle.gt_front.specs.Refused.{IsRefusalLine};
ghost use Rattle.gt_front.specs.Texts.{Texts};
ghost use Rattle.gt_next.specs.States.{State};
ghost use Rattle.gt_session.specs.Sessions.{IsSession, StandsFor};
ghost use Rattle.gt_next.specs.Laws.{IsBuilt};
ghost use Rattle.gt_run.specs.Comes.{IsRefusedFirst, IsTold};
ghost use Rattle.gt_run.specs.Complete.{IsWell};
ghost use Rattle.gt_run.specs.Ended.{Ends, WasRead, refusal_status};
ghost use Rattle.gt_run.specs.Outputs.{output};
ghost use Rattle.gt_run.specs.Runs.{Opens};

use crate::built::are_built;
use crate::ending::Ending;
use crate::opening::open;
use crate::outcome::Outcome;
use crate::refuse::refuse;
use gt_answers::Answers;
use gt_front::{FileWhy, Halt, Ready, Refusal, not_built_line, prepare};
use gt_io::{Files, Sink};
use gt_lines::run_script;
use gt_script::Line;
use gt_session::Session;
use gt_space::Space;
use gt_types::Word;
use gt_words::Call;
use std::alloc::Global;

/// Runs the program: reads the arguments, the files that they name, the headers and the script, and then answers each
/// line of the script and writes its answer. The arguments come without the program's name.
pub fn top<F: Files, K: Sink>(
    alloc: Global,
    words: &[Word],
    files: &mut F,
    out: &mut K,
    space: &mut Space,
) -> Outcome
    requires empty { space.old ≡ empty_range }
    ensures ended { (read : Option Extent) × WasRead F.reads words.now files.old read files.new
        × Ends words.now (F.told files.old) read (output K.writes K.written out.old out.new) result space.new }

    // Where no line was answered, the space is empty, as it came, unless all is done.
    ensures unused { result.answers.items ≡ [] → (space.new ≡ empty_range) ⊎ (result.status ≡ 0) }

    // No command writes a file.
    ensures files { F.told files.new ≡ F.told files.old }
    ensures files_later { F.faults files.old ≤ F.faults files.new }
    ensures sink_later { K.faults out.old ≤ K.faults out.new }

    // Where the script was run, to its end or in part, each file that the arguments name was read once and in order, and
    // nothing else was read; with a generated script nothing was.
    ensures read { (result.status ≡ 0) ⊎ (result.status ≡ 1) ⊎ (result.answers.items ≡ [] → ⊥)
        → (call : Call) × (call_of words.now ≡ Some call) × IsReadFor F.reads call.script call.headers files.old files.new }

    // With a generated script no file is read, nor where the arguments are refused.
    ensures no_file { AskNoFile words.now → files.new ≡ files.old }

    // Up to a refusal this was read: where it is of the arguments, nothing; where it is of a file, each one before it in order, and then this
    // one with the answer for which it is refused; and else each file once and in order, and it is refused by the texts that the reads gave.
    ensures stopped { (refusal : Refusal) → result.refusal ≡ Some refusal
        → (texts : Texts) × IsRefusedFirst words.now (F.told files.old) texts refusal × HasRead F.reads words.now files.old (extent_for texts refusal) files.new }

    // A read fault names the file whose reading failed, after each file before it was read.
    ensures failed { (word : ℕ) → result.refusal ≡ Some (Refusal.File word FileWhy.Fault) → FailsIn F.reads words.now files.old word files.new }

    // A failure is answered only where a call of the files or of the output failed.
    ensures file_cause { (word : ℕ) → result.refusal ≡ Some (Refusal.File word FileWhy.Fault) → Rose (F.faults files.old) (F.faults files.new) }
    ensures sink_cause { result.status ≡ 4 → Rose (K.faults out.old) (K.faults out.new) }

    // Where all is well, the script is run to its end, or memory runs out.
    ensures complete { IsWell words.now (F.told files.old)
        → (Rose (F.faults files.old) (F.faults files.new) → ⊥) → (Rose (K.faults out.old) (K.faults out.new) → ⊥)
        → (result.status ≡ 0) ⊎ (result.status ≡ 1) ⊎ (result.status ≡ 9) }

    // Where something is refused first, it is refused, or the sink failed, or memory runs out.
    ensures refused { (held : Held) (texts : Texts) (refusal : Refusal) → F.told files.old ≡ Some held → IsRefusedFirst words.now (Some held) texts refusal → IsTold refusal
        → (Rose (F.faults files.old) (F.faults files.new) → ⊥)
        → ((result.refusal ≡ Some refusal) × (result.status ≡ refusal_status refusal)) ⊎ (result.status ≡ 4) ⊎ (result.status ≡ 9) }
{
    match prepare(alloc, words, files) {
        Ok(ready) => run_ready(alloc, ready, files, out, space),
        Err(Halt::Memory) => Outcome::of(Ending::NoMemory, Answers::new(alloc)),
        Err(Halt::Refused { refusal, line }) => refused_outcome(
            alloc,
            refusal,
            line.as_slice(),
            out,
        ),
    }
}

// Runs the lines from the opening state, where all of their commands are built.
fn run_ready<F: Files, K: Sink>(
    alloc: Global,
    ready: Ready,
    files: &mut F,
    out: &mut K,
    space: &mut Space,
) -> Outcome
    requires settled { Settled ready.program }
    requires laid { IsLaidOut ready.program ready.layouts }
    requires within { IsWithin ready.program ready.layouts }
    requires ranges { IsInRange ready.call }
    requires empty { space.old ≡ empty_range }
    ensures ended { (words : List (List ℕ)) (asks : Asks words (F.told files.old) ready.call ready.program ready.lines)
        → Ends words (F.told files.old) (Some (whole asks.texts)) (output K.writes K.written out.old out.new) result space.new }
    ensures refusal { IfSome result.refusal (λ refusal. refusal ≡ Refusal.NotBuilt) }
    ensures files { files.new ≡ files.old }
    ensures later { K.faults out.old ≤ K.faults out.new }
    ensures cause { result.status ≡ 4 → Rose (K.faults out.old) (K.faults out.new) }
{
    if !are_built(ready.lines.as_slice()) {
        return refuse_unbuilt(alloc, &ready.call, out);
    }
    let settings = ready.call.settings;
    match open(alloc, ready.program, ready.layouts, settings) {
        Ok(session) => run_lines(alloc, session, ready.lines.as_slice(), files, out, space),
        Err(_) => Outcome::of(Ending::NoMemory, Answers::new(alloc)),
    }
}

// Runs the lines from a session.
fn run_lines<F: Files, K: Sink>(
    alloc: Global,
    session: Session,
    lines: &[Line],
    files: &mut F,
    out: &mut K,
    space: &mut Space,
) -> Outcome
    requires session { IsSession session }
    requires built { All (λ line. IsBuilt line.command) lines.now }
    requires empty { space.old ≡ empty_range }
    ensures ended { (words : List (List ℕ)) (call : Call) (opening : State) (asks : Asks words (F.told files.old) call session.schema.program lines.now)
        → Opens session.schema.program call.settings (F.told files.old) opening → StandsFor session (F.told files.old) opening
        → Ends words (F.told files.old) (Some (whole asks.texts)) (output K.writes K.written out.old out.new) result space.new }
    ensures refusal { result.refusal ≡ None }
    ensures files { files.new ≡ files.old }
    ensures later { K.faults out.old ≤ K.faults out.new }
    ensures cause { result.status ≡ 4 → Rose (K.faults out.old) (K.faults out.new) }
{
    let mut answers = Answers::new(alloc);
    let end = run_script(alloc, session, files, out, space, &mut answers, lines);
    Outcome::of(Ending::of(end), answers)
}

// Says that the script asks for what is not built so far.
fn refuse_unbuilt<K: Sink>(alloc: Global, call: &Call, out: &mut K) -> Outcome
    ensures ended { (words : List (List ℕ)) (told : Option Held) (texts : Texts) → call_of words ≡ Some call.now → IsRefusedFirst words told texts Refusal.NotBuilt → Ends words told (Some (whole texts)) (output K.writes K.written out.old out.new) result empty_range }
    ensures refusal { IfSome result.refusal (λ refusal. refusal ≡ Refusal.NotBuilt) }
    ensures later { K.faults out.old ≤ K.faults out.new }
    ensures cause { result.status ≡ 4 → Rose (K.faults out.old) (K.faults out.new) }
{
    match not_built_line(alloc, call) {
        Ok(line) => refused_outcome(alloc, Refusal::NotBuilt, line.as_slice(), out),
        Err(_) => Outcome::of(Ending::NoMemory, Answers::new(alloc)),
    }
}

// Writes the line of a refusal, and ends with it.
fn refused_outcome<K: Sink>(alloc: Global, refusal: Refusal, line: &[u8], out: &mut K) -> Outcome
    ensures ended { (words : List (List ℕ)) (told : Option Held) (texts : Texts) → IsRefusedFirst words told texts refusal
        → IsRefusalLine words texts refusal line.now → Ends words told (Some (extent_for texts refusal)) (output K.writes K.written out.old out.new) result empty_range }
    ensures status { 2 ≤ result.status }
    ensures unanswered { result.answers.items ≡ [] }
    ensures refusal { IfSome result.refusal (λ told. told ≡ refusal) }
    ensures later { K.faults out.old ≤ K.faults out.new }
    ensures cause { result.status ≡ 4 → Rose (K.faults out.old) (K.faults out.new) }
{
    Outcome::of(refuse(refusal, line, out), Answers::new(alloc))
}
