// The stages of the work up to the first command. Each gives what it is for, or why nothing runs.
ghost use Rattle.std.specs.Prelude.{◌≡◌, ◌≤◌, All, IfErr, IfOk, IsErrOf, List, Option, Some, length, ℕ};
ghost use Rattle.gt_io.specs.Counts.{Rose};
ghost use Rattle.gt_io.specs.Held.{Held};
ghost use Rattle.gt_headers.specs.Headers.{Declares};
ghost use Rattle.gt_layout.specs.Planes.{IsLaidOut};
ghost use Rattle.gt_layout.specs.Excess.{IsWithin};
ghost use Rattle.gt_script.specs.Outcome.{Parsed};
ghost use Rattle.gt_types.specs.declared.program.Program.{Program};
ghost use Rattle.gt_words.specs.Calls.{call_of};
ghost use Rattle.gt_words.specs.Ranges.{IsInRange};
ghost use Rattle.gt_front.specs.Asks.{Calls, Reads, generated_texts};
ghost use Rattle.gt_front.specs.Comes.{Comes};
ghost use Rattle.gt_front.specs.Halts.{HaltsAfter};
ghost use Rattle.gt_front.specs.Order.{AskNoFile, IsReadAs, nothing, extent_for, whole};
ghost use Rattle.gt_front.specs.Reading.{HasWord, IsStopOf};
ghost use Rattle.gt_front.specs.Refused.{IsRefusalLine};
ghost use Rattle.gt_front.specs.Stages.{AreWithin, HaltsAt, HaltsBy, texts_of};
ghost use Rattle.gt_front.specs.Texts.{Texts};

use crate::preparing::Halt;
use crate::reading::{ReadStop, read_file, read_headers};
use crate::refused::{fault_line, file_line, script_line, why_text, words_line};
use crate::{FileWhy, MAX_HEADER_BYTES, MAX_SCRIPT_BYTES, Refusal, SCRIPT_SYNTAX, SCRIPT_TOO_LONG};
use gt_headers::{Declared, declare};
use gt_io::Files;
use gt_script::{Line, ScriptStop, parse_script};
use gt_types::{Bytes, List, Stop, Word};
use gt_words::{Call, Script, read_words};
use std::alloc::{AllocError, Global};

/// The texts of the headers and of the script.
#[derive(Drop)]
pub struct Found {
    pub headers: Vec<Bytes>,
    pub script: Bytes,
}

/// What the arguments ask for.
pub fn read_call(alloc: Global, words: &[Word]) -> Result<Call, Halt>
    ensures called { IfOk result (λ call. call_of words.now ≡ Some call) }
    ensures ranges { IfOk result IsInRange }
    ensures halted { (told : Option Held) (texts : Texts) → IfErr result (HaltsBy words.now told texts nothing) }
    ensures no_file { (word : ℕ) (line : List ℕ) → IsErrOf result (Halt.Refused (Refusal.File word FileWhy.Fault) line) → ⊥ }
{
    match read_words(alloc, words) {
        Ok(Some(call)) => Ok(call),
        Ok(None) => Err(halt(Refusal::Words, words_line(alloc))),
        Err(_) => Err(Halt::Memory),
    }
}

/// The texts that a call asks for: of the files, or those that are generated.
pub fn read_texts<F: Files>(alloc: Global, call: &Call, files: &mut F) -> Result<Found, Halt>
    requires ranges { IsInRange call.now }
    ensures read { (words : List (List ℕ)) → call_of words ≡ Some call.now → IfOk result (λ found. Reads words (F.told files.old) call.now (texts_of found)) }
    ensures within { IfOk result (λ found. AreWithin call.now found.headers.items) }
    ensures short { IfOk result (λ found. length found.script ≤ MAX_SCRIPT_BYTES) }
    ensures halted { (words : List (List ℕ)) → call_of words ≡ Some call.now → IfErr result (λ halt. HaltsAfter F.reads words (F.told files.old) files.old halt files.new) }
    ensures told { F.told files.new ≡ F.told files.old }
    ensures later { F.faults files.old ≤ F.faults files.new }
    ensures cause { (word : ℕ) (line : List ℕ) → IsErrOf result (Halt.Refused (Refusal.File word FileWhy.Fault) line) → Rose (F.faults files.old) (F.faults files.new) }
    ensures files { IfOk result (λ found. IsReadAs F.reads call.now.script call.now.headers (texts_of found) files.old files.new) }
    ensures no_file { (words : List (List ℕ)) → call_of words ≡ Some call.now → AskNoFile words → files.new ≡ files.old }
{
    match &call.script {
        Script::File(name) => read_files(alloc, call, name, files),
        Script::Generated { n, .. } => match generate_texts(alloc, *n) {
            Ok(found) => Ok(found),
            Err(_) => Err(Halt::Memory),
        },
    }
}

// The texts of the files, read in their order.
fn read_files<F: Files>(
    alloc: Global,
    call: &Call,
    name: &Word,
    files: &mut F,
) -> Result<Found, Halt>
    requires ranges { IsInRange call.now }
    requires script { call.now.script ≡ Script.File name.now }
    ensures read { (words : List (List ℕ)) → call_of words ≡ Some call.now → IfOk result (λ found. Reads words (F.told files.old) call.now (texts_of found)) }
    ensures within { IfOk result (λ found. AreWithin call.now found.headers.items) }
    ensures short { IfOk result (λ found. length found.script ≤ MAX_SCRIPT_BYTES) }
    ensures halted { (words : List (List ℕ)) → call_of words ≡ Some call.now → IfErr result (λ halt. HaltsAfter F.reads words (F.told files.old) files.old halt files.new) }
    ensures told { F.told files.new ≡ F.told files.old }
    ensures later { F.faults files.old ≤ F.faults files.new }
    ensures cause { (word : ℕ) (line : List ℕ) → IsErrOf result (Halt.Refused (Refusal.File word FileWhy.Fault) line) → Rose (F.faults files.old) (F.faults files.new) }
    ensures files { IfOk result (λ found. IsReadAs F.reads call.now.script call.now.headers (texts_of found) files.old files.new) }
{
    let headers = match read_headers(alloc, files, call.headers.as_slice()) {
        Ok(texts) => texts,
        Err(stop) => return Err(halt_reading(alloc, call, stop)),
    };
    match read_file(alloc, files, name, 0, MAX_SCRIPT_BYTES) {
        Ok(script) => Ok(Found { headers, script }),
        Err(stop) => Err(halt_reading(alloc, call, stop)),
    }
}

/// The program that the headers with these texts declare, with its layouts.
pub fn declare_texts(alloc: Global, call: &Call, texts: &[Bytes]) -> Result<Declared, Halt>
    requires within { AreWithin call.now texts.now }
    ensures declared { IfOk result (λ declared. Declares texts.now declared.program) }
    ensures laid { IfOk result (λ declared. IsLaidOut declared.program declared.layouts) }
    ensures within { IfOk result (λ declared. IsWithin declared.program declared.layouts) }
    ensures halted { (words : List (List ℕ)) (told : Option Held) (script : List ℕ)
        → Reads words told call.now (record { headers = texts.now; script = script })
        → IfErr result (HaltsBy words told (record { headers = texts.now; script = script }) (whole (record { headers = texts.now; script = script }))) }
    ensures no_file { (word : ℕ) (line : List ℕ) → IsErrOf result (Halt.Refused (Refusal.File word FileWhy.Fault) line) → ⊥ }
{
    match declare(alloc, texts) {
        Ok(declared) => Ok(declared),
        Err(Stop::Memory) => Err(Halt::Memory),
        Err(Stop::At(fault)) => Err(halt(
            Refusal::Header(fault),
            fault_line(alloc, call, texts, fault),
        )),
    }
}

/// The lines of the script with this text.
pub fn lines_of(alloc: Global, call: &Call, text: Bytes) -> Result<List<Line>, Halt>
    requires short { length text ≤ MAX_SCRIPT_BYTES }
    ensures parsed { IfOk result (Parsed text) }
    ensures halted { (words : List (List ℕ)) (told : Option Held) (headers : List (List ℕ)) (program : Program)
        → Reads words told call.now (record { headers = headers; script = text }) → Declares headers program
        → IfErr result (HaltsBy words told (record { headers = headers; script = text }) (whole (record { headers = headers; script = text }))) }
    ensures no_file { (word : ℕ) (line : List ℕ) → IsErrOf result (Halt.Refused (Refusal.File word FileWhy.Fault) line) → ⊥ }
{
    match parse_script(alloc, text) {
        Ok(lines) => Ok(lines),
        Err(ScriptStop::Memory) => Err(Halt::Memory),
        Err(ScriptStop::ScriptSyntax { line }) => {
            Err(halt_script(alloc, call, SCRIPT_SYNTAX, line))
        }
        Err(ScriptStop::ScriptTooLong) => Err(halt_script(alloc, call, SCRIPT_TOO_LONG, 0)),
    }
}

// The texts of a generated script of n nodes.
fn generate_texts(alloc: Global, n: u32) -> Result<Found, AllocError>
    requires few { n ≤ 100000 }
    ensures texts { IfOk result (λ found. texts_of found ≡ generated_texts n) }
    ensures one { IfOk result (λ found. length found.headers.items ≡ 1) }
    ensures within { IfOk result (λ found. All (λ text. length text ≤ MAX_HEADER_BYTES) found.headers.items) }
    ensures short { IfOk result (λ found. length found.script ≤ MAX_SCRIPT_BYTES) }
{
    let mut headers = Vec::new(alloc);
    headers.push(gt_generated::header(alloc)?)?;
    let script = gt_generated::script(alloc, n)?;
    Ok(Found { headers, script })
}

// The halt at a file that was not read.
fn halt_reading(alloc: Global, call: &Call, stop: ReadStop) -> Halt
    requires there { HasWord call.now stop }
    ensures halted { (words : List (List ℕ)) (told : Option Held) (name : List ℕ) (texts : Texts)
        → Calls words call.now name → IsStopOf told name call.now.headers stop → HaltsAt words told texts stop result }
    ensures same { (word : ℕ) (line : List ℕ) → result ≡ Halt.Refused (Refusal.File word FileWhy.Fault) line → stop ≡ ReadStop.Refused word FileWhy.Fault }
{
    match stop {
        ReadStop::Memory => Halt::Memory,
        ReadStop::Refused { word, why } => halt(
            Refusal::File { word, why },
            file_line(alloc, call, word, why_text(why)),
        ),
    }
}

// The halt at a fault of the script.
fn halt_script(alloc: Global, call: &Call, number: u8, line: u32) -> Halt
    ensures halted { (words : List (List ℕ)) (told : Option Held) (texts : Texts)
        → Comes words told texts (Refusal.Script number line) → call_of words ≡ Some call.now → HaltsBy words told texts (whole texts) result }
    ensures same { (other : Refusal) (bytes : List ℕ) → result ≡ Halt.Refused other bytes → other ≡ Refusal.Script number line }
{
    halt(
        Refusal::Script { number, line },
        script_line(alloc, call, number, line),
    )
}

// The halt with a refusal and its line, where there was memory for the line.
fn halt(refusal: Refusal, line: Result<Bytes, AllocError>) -> Halt
    ensures halted { (words : List (List ℕ)) (told : Option Held) (texts : Texts)
        → Comes words told texts refusal → IfOk line (IsRefusalLine words texts refusal) → HaltsBy words told texts (extent_for texts refusal) result }
    ensures same { (other : Refusal) (bytes : List ℕ) → result ≡ Halt.Refused other bytes → other ≡ refusal }
{
    match line {
        Ok(line) => Halt::Refused { refusal, line },
        Err(_) => Halt::Memory,
    }
}
