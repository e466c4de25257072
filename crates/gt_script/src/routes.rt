// Paths and values.
ghost use Rattle.std.specs.Prelude.{◌≡◌, IfOk};
ghost use Rattle.std.specs.Option.{option_map};
ghost use Rattle.gt_script.specs.declared.command.Given.TheVariants.{Integer, Var};
ghost use Rattle.gt_script.specs.Values.{name_at, given_at};
ghost use Rattle.gt_split.specs.Numbers.{integer_at};
ghost use Rattle.gt_script.specs.Paths.{route_at, path_at};

use crate::source::Source;
use crate::steps::{Steps, step_place};
use crate::{Given, Route};
use gt_split::{Slice, integer};
use std::alloc::AllocError;

// The path that a word is.
#[tactic(auto, unfolding(crate::specs::Paths::path_at))]
#[inline(always)]
pub fn path(source: &Source, word: &Slice<'_>) -> Result<Option<Route>, AllocError>
    ensures { IfOk result (λ found. found ≡ path_at word.now) }
{
    match word.after(b'$') {
        Some(text) => route(source, true, &text),
        None => route(source, false, word),
    }
}

#[inline(always)]
fn route(source: &Source, variable: bool, text: &Slice<'_>) -> Result<Option<Route>, AllocError>
    ensures { IfOk result (λ found. found ≡ route_at variable text.now) }
{
    let (start, steps) = text.split_at(step_place(text.bytes()));
    let Some(name) = source.name(&start)? else {
        return Ok(None);
    };
    let Some(steps) = Steps::of(source, &steps)? else {
        return Ok(None);
    };
    Ok(Some(Route {
        variable,
        name,
        steps,
    }))
}

// The value that a word gives.
#[tactic(auto, unfolding(crate::specs::Values::given_at))]
#[inline(always)]
pub fn read_value(source: &Source, word: &Slice<'_>) -> Result<Option<Given>, AllocError>
    ensures { IfOk result (λ found. found ≡ given_at word.now) }
{
    if word.bytes() == b"null".as_slice() {
        return Ok(Some(Given::Null));
    }
    match word.after(b'$') {
        Some(name) => given_variable(source, &name),
        None => Ok(given_integer(word.bytes())),
    }
}

#[inline(always)]
fn given_variable(source: &Source, name: &Slice<'_>) -> Result<Option<Given>, AllocError>
    ensures { IfOk result (λ found. found ≡ option_map Var (name_at name.now)) }
{
    let Some(name) = source.name(name)? else {
        return Ok(None);
    };
    Ok(Some(Given::Var(name)))
}

fn given_integer(text: &[u8]) -> Option<Given>
    ensures { result ≡ option_map Integer (integer_at text.now) }
{
    match integer(text) {
        None => None,
        Some(number) => Some(Given::Integer(number)),
    }
}
