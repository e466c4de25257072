// The commands that begin with a path or a cache.
ghost use Rattle.std.specs.Prelude.{◌≡◌, IfOk};
ghost use Rattle.gt_script.specs.Commands.{set_at, print_at, put_at, find_at, place_command_at};

use crate::Command;
use crate::naming::variable;
use crate::routes::{path, read_value};
use crate::source::Source;
use crate::variable_forms::variable_command;
use gt_split::Piece;
use std::alloc::AllocError;

/// The command that a first word and the words after it are, where it is none of the whole heap.
#[tactic(auto, unfolding(crate::specs::Commands::place_command_at))]
#[inline(always)]
pub fn place_command(
    source: &Source,
    verb: &[u8],
    words: &[Piece<'_>],
) -> Result<Option<Command>, AllocError>
    ensures { IfOk result (λ found. found ≡ place_command_at verb.now words.now) }
{
    if verb == b"set".as_slice() {
        return set(source, words);
    }
    if verb == b"print".as_slice() {
        return print(source, words);
    }
    if verb == b"put".as_slice() {
        return put(source, words);
    }
    if verb == b"find".as_slice() {
        return find(source, words);
    }
    variable_command(source, verb, words)
}

#[tactic(auto, unfolding(crate::specs::Commands::set_at))]
#[inline(always)]
fn set(source: &Source, words: &[Piece<'_>]) -> Result<Option<Command>, AllocError>
    ensures { IfOk result (λ found. found ≡ set_at words.now) }
{
    let [place, value] = words else {
        return Ok(None);
    };
    let (Piece::Plain(place), Piece::Plain(value)) = (place, value) else {
        return Ok(None);
    };
    let Some(path) = path(source, place)? else {
        return Ok(None);
    };
    let Some(value) = read_value(source, value)? else {
        return Ok(None);
    };
    Ok(Some(Command::Set { path, value }))
}

#[tactic(auto, unfolding(crate::specs::Commands::print_at))]
fn print(source: &Source, words: &[Piece<'_>]) -> Result<Option<Command>, AllocError>
    ensures { IfOk result (λ found. found ≡ print_at words.now) }
{
    let [place] = words else {
        return Ok(None);
    };
    let Piece::Plain(place) = place else {
        return Ok(None);
    };
    let Some(path) = path(source, place)? else {
        return Ok(None);
    };
    Ok(Some(Command::Print { path }))
}

#[tactic(auto, unfolding(crate::specs::Commands::put_at))]
fn put(source: &Source, words: &[Piece<'_>]) -> Result<Option<Command>, AllocError>
    ensures { IfOk result (λ found. found ≡ put_at words.now) }
{
    let [cache, key, value] = words else {
        return Ok(None);
    };
    let (Piece::Plain(cache), Piece::Plain(key), Piece::Plain(value)) = (cache, key, value) else {
        return Ok(None);
    };
    let Some(cache) = source.name(cache)? else {
        return Ok(None);
    };
    let Some(key) = variable(source, key)? else {
        return Ok(None);
    };
    let Some(value) = variable(source, value)? else {
        return Ok(None);
    };
    Ok(Some(Command::Put { cache, key, value }))
}

#[tactic(auto, unfolding(crate::specs::Commands::find_at))]
fn find(source: &Source, words: &[Piece<'_>]) -> Result<Option<Command>, AllocError>
    ensures { IfOk result (λ found. found ≡ find_at words.now) }
{
    let [cache, key] = words else {
        return Ok(None);
    };
    let (Piece::Plain(cache), Piece::Plain(key)) = (cache, key) else {
        return Ok(None);
    };
    let Some(cache) = source.name(cache)? else {
        return Ok(None);
    };
    let Some(key) = variable(source, key)? else {
        return Ok(None);
    };
    Ok(Some(Command::Find { cache, key }))
}
