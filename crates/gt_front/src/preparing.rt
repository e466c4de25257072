// The order of work up to the first command.
ghost use Rattle.std.specs.Prelude.{◌≡◌, ◌≤◌, ℕ, List, Err, IfErr, IfOk};
ghost use Rattle.gt_io.specs.Counts.{Rose};
ghost use Rattle.gt_layout.specs.Planes.{IsLaidOut};
ghost use Rattle.gt_layout.specs.Excess.{IsWithin};
ghost use Rattle.gt_words.specs.Ranges.{IsInRange};
ghost use Rattle.gt_front.specs.Asks.{Asks};
ghost use Rattle.gt_front.specs.Halts.{Halts, HaltsAfter};
ghost use Rattle.gt_front.specs.Order.{AskNoFile, FailsIn, IsReadAs, IsReadFor};

use crate::stages::{declare_texts, lines_of, read_call, read_texts};
use crate::{FileWhy, Refusal};
use gt_headers::Declared;
use gt_io::Files;
use gt_layout::Layouts;
use gt_script::Line;
use gt_types::{Bytes, List, Program, Word};
use gt_words::Call;
use std::alloc::Global;

/// What the arguments ask for, the program of the headers with its layouts, and the lines of the script.
#[derive(Drop)]
pub struct Ready {
    pub call: Call,
    pub program: Program,
    pub layouts: Layouts,
    pub lines: List<Line>,
}

/// Why nothing runs: out of memory, or a refusal and the line that says it, which ends with a newline.
#[derive(Drop)]
pub enum Halt {
    Memory,
    Refused { refusal: Refusal, line: Bytes },
}

/// The order of work up to the first command: the arguments; each header read in order, and then the script, or the header
/// and the script that are generated; the faults of the headers and their program; the lines of the script. What is refused
/// first ends it. The arguments come without the program's name. No file changes.
pub fn prepare<F: Files>(alloc: Global, words: &[Word], files: &mut F) -> Result<Ready, Halt>
    ensures ready { IfOk result (λ ready. Asks words.now (F.told files.old) ready.call ready.program ready.lines) }
    ensures laid { IfOk result (λ ready. IsLaidOut ready.program ready.layouts) }
    ensures within { IfOk result (λ ready. IsWithin ready.program ready.layouts) }
    ensures ranges { IfOk result (λ ready. IsInRange ready.call) }
    ensures halted { IfErr result (Halts words.now (F.told files.old)) }
    ensures told { F.told files.new ≡ F.told files.old }
    ensures later { F.faults files.old ≤ F.faults files.new }

    // Each file that the arguments name is read once and in order; with a generated script none is. The program and the lines are those of
    // the texts that the reads gave.
    ensures read { IfOk result (λ ready. IsReadFor F.reads ready.call.script ready.call.headers files.old files.new) }
    ensures given { IfOk result (λ ready. (asks : Asks words.now (F.told files.old) ready.call ready.program ready.lines)
        × IsReadAs F.reads ready.call.script ready.call.headers asks.texts files.old files.new) }
    ensures no_file { AskNoFile words.now → files.new ≡ files.old }

    // Up to a refusal this was read: where it is of the words, nothing; where it is of a file, each one before it in order, and then this one
    // with the answer for which it is refused; and else each file once and in order, and it is refused by the texts that the reads gave.
    ensures stopped { IfErr result (λ halt. HaltsAfter F.reads words.now (F.told files.old) files.old halt files.new) }

    // A file is answered as failed only where a read failed, and it is the one that was read.
    ensures cause { (word : ℕ) (line : List ℕ) → result ≡ Err (Halt.Refused (Refusal.File word FileWhy.Fault) line) → Rose (F.faults files.old) (F.faults files.new) }
    ensures failed { (word : ℕ) (line : List ℕ) → result ≡ Err (Halt.Refused (Refusal.File word FileWhy.Fault) line) → FailsIn F.reads words.now files.old word files.new }
{
    let call = match read_call(alloc, words) {
        Ok(call) => call,
        Err(halt) => return Err(halt),
    };
    let found = match read_texts(alloc, &call, files) {
        Ok(found) => found,
        Err(halt) => return Err(halt),
    };
    let Declared { program, layouts } = match declare_texts(
        alloc,
        &call,
        found.headers.as_slice(),
    ) {
        Ok(declared) => declared,
        Err(halt) => return Err(halt),
    };
    let lines = match lines_of(alloc, &call, found.script) {
        Ok(lines) => lines,
        Err(halt) => return Err(halt),
    };
    Ok(Ready {
        call,
        program,
        layouts,
        lines,
    })
}
