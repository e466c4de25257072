// The commands that begin with a variable.
ghost use Rattle.std.specs.Prelude.{◌≡◌, IfOk};
ghost use Rattle.gt_script.specs.Commands.{new_at, plain_new_at, sized_new_at, array_at, text_at, block_at, get_at, drop_at, variable_command_at};

use crate::Command;
use crate::naming::{type_name, variable};
use crate::routes::path;
use crate::source::Source;
use gt_split::{Piece, Slice, integer};
use gt_types::Copied;
use std::alloc::AllocError;

/// The command that a first word and the words after it are, where it begins with a variable.
#[tactic(auto, unfolding(crate::specs::Commands::variable_command_at))]
pub fn variable_command(
    source: &Source,
    verb: &[u8],
    words: &[Piece<'_>],
) -> Result<Option<Command>, AllocError>
    ensures { IfOk result (λ found. found ≡ variable_command_at verb.now words.now) }
{
    if verb == b"new".as_slice() {
        return new(source, words);
    }
    if verb == b"array".as_slice() {
        return array(source, words);
    }
    if verb == b"string".as_slice() {
        return text(source, words);
    }
    if verb == b"block".as_slice() {
        return block(source, words);
    }
    if verb == b"get".as_slice() {
        return get(source, words);
    }
    if verb == b"drop".as_slice() {
        return drop_variable(source, words);
    }
    Ok(None)
}

#[tactic(auto, unfolding(crate::specs::Commands::new_at))]
fn new(source: &Source, words: &[Piece<'_>]) -> Result<Option<Command>, AllocError>
    ensures { IfOk result (λ found. found ≡ new_at words.now) }
{
    match words {
        [var, ty] => match (var, ty) {
            (Piece::Plain(var), Piece::Plain(ty)) => plain_new(source, var, ty),
            _ => Ok(None),
        },
        [var, ty, n] => match (var, ty, n) {
            (Piece::Plain(var), Piece::Plain(ty), Piece::Plain(n)) => sized_new(source, var, ty, n),
            _ => Ok(None),
        },
        _ => Ok(None),
    }
}

#[tactic(auto, unfolding(crate::specs::Commands::plain_new_at))]
fn plain_new(
    source: &Source,
    var: &Slice<'_>,
    ty: &Slice<'_>,
) -> Result<Option<Command>, AllocError>
    ensures { IfOk result (λ found. found ≡ plain_new_at var.now ty.now) }
{
    let Some(var) = variable(source, var)? else {
        return Ok(None);
    };
    let Some(ty) = type_name(source, ty)? else {
        return Ok(None);
    };
    Ok(Some(Command::New { var, ty, n: None }))
}

#[tactic(auto, unfolding(crate::specs::Commands::sized_new_at))]
fn sized_new(
    source: &Source,
    var: &Slice<'_>,
    ty: &Slice<'_>,
    n: &Slice<'_>,
) -> Result<Option<Command>, AllocError>
    ensures { IfOk result (λ found. found ≡ sized_new_at var.now ty.now n.now) }
{
    let Some(var) = variable(source, var)? else {
        return Ok(None);
    };
    let Some(ty) = type_name(source, ty)? else {
        return Ok(None);
    };
    let Some(n) = integer(n.bytes()) else {
        return Ok(None);
    };
    Ok(Some(Command::New {
        var,
        ty,
        n: Some(n),
    }))
}

#[tactic(auto, unfolding(crate::specs::Commands::array_at))]
fn array(source: &Source, words: &[Piece<'_>]) -> Result<Option<Command>, AllocError>
    ensures { IfOk result (λ found. found ≡ array_at words.now) }
{
    let [var, ty, n] = words else {
        return Ok(None);
    };
    let (Piece::Plain(var), Piece::Plain(ty), Piece::Plain(n)) = (var, ty, n) else {
        return Ok(None);
    };
    let Some(var) = variable(source, var)? else {
        return Ok(None);
    };
    let Some(ty) = type_name(source, ty)? else {
        return Ok(None);
    };
    let Some(n) = integer(n.bytes()) else {
        return Ok(None);
    };
    Ok(Some(Command::Array { var, ty, n }))
}

#[tactic(auto, unfolding(crate::specs::Commands::text_at))]
fn text(source: &Source, words: &[Piece<'_>]) -> Result<Option<Command>, AllocError>
    ensures { IfOk result (λ found. found ≡ text_at words.now) }
{
    let [var, text] = words else {
        return Ok(None);
    };
    let (Piece::Plain(var), Piece::Quoted(text)) = (var, text) else {
        return Ok(None);
    };
    let Some(var) = variable(source, var)? else {
        return Ok(None);
    };
    let text = text.bytes().copy(source.alloc())?;
    Ok(Some(Command::Text { var, text }))
}

#[tactic(auto, unfolding(crate::specs::Commands::block_at))]
fn block(source: &Source, words: &[Piece<'_>]) -> Result<Option<Command>, AllocError>
    ensures { IfOk result (λ found. found ≡ block_at words.now) }
{
    let [var, n] = words else {
        return Ok(None);
    };
    let (Piece::Plain(var), Piece::Plain(n)) = (var, n) else {
        return Ok(None);
    };
    let Some(var) = variable(source, var)? else {
        return Ok(None);
    };
    let Some(n) = integer(n.bytes()) else {
        return Ok(None);
    };
    Ok(Some(Command::Block { var, n }))
}

#[tactic(auto, unfolding(crate::specs::Commands::get_at))]
fn get(source: &Source, words: &[Piece<'_>]) -> Result<Option<Command>, AllocError>
    ensures { IfOk result (λ found. found ≡ get_at words.now) }
{
    let [var, place] = words else {
        return Ok(None);
    };
    let (Piece::Plain(var), Piece::Plain(place)) = (var, place) else {
        return Ok(None);
    };
    let Some(var) = variable(source, var)? else {
        return Ok(None);
    };
    let Some(path) = path(source, place)? else {
        return Ok(None);
    };
    Ok(Some(Command::Get { var, path }))
}

#[tactic(auto, unfolding(crate::specs::Commands::drop_at))]
fn drop_variable(source: &Source, words: &[Piece<'_>]) -> Result<Option<Command>, AllocError>
    ensures { IfOk result (λ found. found ≡ drop_at words.now) }
{
    let [var] = words else {
        return Ok(None);
    };
    let Piece::Plain(var) = var else {
        return Ok(None);
    };
    let Some(var) = variable(source, var)? else {
        return Ok(None);
    };
    Ok(Some(Command::Drop { var }))
}
