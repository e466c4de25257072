// The commands of the whole heap, and of all commands the one that words are.
ghost use Rattle.std.specs.Prelude.{◌≡◌, [], ◌∷◌, IfOk};
ghost use Rattle.gt_script.specs.Commands.{collect_at, save_at, load_at, tables_at, heap_at, stats_at, command_at};

use crate::Command;
use crate::naming::file_name;
use crate::place_forms::place_command;
use crate::source::Source;
use gt_split::{Piece, integer};
use std::alloc::AllocError;

/// The command that a first word and the words after it are.
#[tactic(auto, unfolding(crate::specs::Commands::command_at))]
#[inline(always)]
pub fn command(
    source: &Source,
    verb: &[u8],
    words: &[Piece<'_>],
) -> Result<Option<Command>, AllocError>
    ensures { IfOk result (λ found. found ≡ command_at verb.now words.now) }
{
    if verb == b"collect".as_slice() {
        return Ok(collect(words));
    }
    if verb == b"save".as_slice() {
        return save(source, words);
    }
    if verb == b"load".as_slice() {
        return load(source, words);
    }
    if verb == b"tables".as_slice() {
        return Ok(tables(words));
    }
    if verb == b"heap".as_slice() {
        return Ok(heap(words));
    }
    if verb == b"stats".as_slice() {
        return Ok(stats(words));
    }
    place_command(source, verb, words)
}

#[tactic(auto, unfolding(crate::specs::Commands::collect_at))]
fn collect(words: &[Piece<'_>]) -> Option<Command>
    ensures { result ≡ collect_at words.now }
{
    match words {
        [] => Some(Command::Collect),
        [word] => collect_by(word),
        _ => None,
    }
}

// `collect` with a word after it.
#[tactic(auto, unfolding(crate::specs::Commands::collect_at))]
fn collect_by(word: &Piece<'_>) -> Option<Command>
    ensures { result ≡ collect_at (word.now ∷ []) }
{
    match word {
        Piece::Plain(word) if word.bytes() == b"force".as_slice() => Some(Command::CollectForce),
        _ => None,
    }
}

#[tactic(auto, unfolding(crate::specs::Commands::save_at))]
fn save(source: &Source, words: &[Piece<'_>]) -> Result<Option<Command>, AllocError>
    ensures { IfOk result (λ found. found ≡ save_at words.now) }
{
    let [file, page] = words else {
        return Ok(None);
    };
    let (Piece::Quoted(file), Piece::Plain(page)) = (file, page) else {
        return Ok(None);
    };
    let Some(file) = file_name(source, file)? else {
        return Ok(None);
    };
    let Some(page) = integer(page.bytes()) else {
        return Ok(None);
    };
    Ok(Some(Command::Save { file, page }))
}

#[tactic(auto, unfolding(crate::specs::Commands::load_at))]
fn load(source: &Source, words: &[Piece<'_>]) -> Result<Option<Command>, AllocError>
    ensures { IfOk result (λ found. found ≡ load_at words.now) }
{
    let [file] = words else {
        return Ok(None);
    };
    let Piece::Quoted(file) = file else {
        return Ok(None);
    };
    let Some(file) = file_name(source, file)? else {
        return Ok(None);
    };
    Ok(Some(Command::Load { file }))
}

#[tactic(auto, unfolding(crate::specs::Commands::tables_at))]
fn tables(words: &[Piece<'_>]) -> Option<Command>
    ensures { result ≡ tables_at words.now }
{
    match words {
        [] => Some(Command::Tables),
        _ => None,
    }
}

#[tactic(auto, unfolding(crate::specs::Commands::heap_at))]
fn heap(words: &[Piece<'_>]) -> Option<Command>
    ensures { result ≡ heap_at words.now }
{
    match words {
        [] => Some(Command::Heap),
        _ => None,
    }
}

#[tactic(auto, unfolding(crate::specs::Commands::stats_at))]
fn stats(words: &[Piece<'_>]) -> Option<Command>
    ensures { result ≡ stats_at words.now }
{
    match words {
        [] => Some(Command::Stats),
        _ => None,
    }
}
