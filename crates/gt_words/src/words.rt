// The words of the command line.
ghost use Rattle.std.specs.Prelude.{◌≡◌, IfOk, IfSome, MatchResult, Ok, Err, None, map, encode_utf8_all};
ghost use Rattle.clap.specs.Walk.{texts as texts_after};
ghost use Rattle.clap.specs.Values.{kind_of};
ghost use Rattle.clap.specs.declared.error.kind.ErrorKind.TheVariants.{OutOfMemory};
ghost use Rattle.gt_words.specs.Calls.{call_of};
ghost use Rattle.gt_words.specs.Ranges.{IsInRange};

use crate::Call;
use crate::command::command;
use crate::found::found_call;
use clap::Error;
use clap::error::ErrorKind;
use gt_types::Word;
use std::alloc::{AllocError, Global};

/// What the words ask for. They are those after the program's name:
/// `[--space PAGES] [--min-expand N] [--min-heapsize KIB] SCRIPT {HEADER}`, read with `clap` as a simple command. A number
/// is decimal digits without a sign or a leading zero, in its range (`Settings`). SCRIPT is a file's name, and from 1 to 64
/// HEADER words after it are files' names; or it is `:N` with N of one to six digits, at most 100000, and no HEADER stands
/// after it. No file's name is empty, and the script's does not begin with `:`. None means that `clap` or
/// one of these rules refuses the words; a request for help is refused too. Its only error is out of memory.
pub fn read_words(alloc: Global, words: &[Word]) -> Result<Option<Call>, AllocError>
    ensures call { IfOk result (λ found. found ≡ call_of words.now) }
    ensures ranges { IfOk result (λ found. IfSome found IsInRange) }
{
    let texts = texts_of(alloc, words)?;
    let command = command(alloc)?;
    match command.try_get_matches_from(texts.as_slice()) {
        Ok(matches) => found_call(alloc, &matches),
        Err(error) => refuse(&error),
    }
}

// The words as texts.
fn texts_of<'a>(alloc: Global, words: &'a [Word]) -> Result<Vec<&'a str>, AllocError>
    ensures { IfOk result (λ texts. texts_after texts.items ≡ map encode_utf8_all words.entry.now) }
{
    let mut texts = Vec::new(alloc);
    for word in words {
        texts.push(word.as_str())?;
    }
    Ok(texts)
}

// The answer where `clap` gives no matches: out of memory, or a refusal.
fn refuse(error: &Error) -> Result<Option<Call>, AllocError>
    ensures { MatchResult result (λ found. (found ≡ None) × (kind_of error.now ≡ OutOfMemory → ⊥)) (λ _. kind_of error.now ≡ OutOfMemory) }
{
    if error.kind() == ErrorKind::OutOfMemory {
        return Err(AllocError);
    }
    Ok(None)
}
