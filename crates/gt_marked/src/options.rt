// The options of a marker.
ghost use Rattle.std.specs.Prelude.{◌≡◌, false, [], length};
ghost use Rattle.std.specs.Option.{option_map};
ghost use Rattle.gt_expr.specs.Expression.{expression_of};
ghost use Rattle.gt_marked.specs.Outcome.{Gives, GivesBefore};
ghost use Rattle.gt_marked.specs.Markers.{takes_expression, unescaped, expression_at, parameter_at, parameters_at, option_at, comma_after, options_from, options_at};

use crate::markers::close_round;
use crate::strings::{strings, unescape};
use crate::unread::{Unread, unexpected_token};
use gt_expr::BAD_EXPR;
use gt_items::{Parameter, RawOption};
use gt_search::{Bracket, Lexeme, TokenText};
use gt_types::{Bytes, List, Stop, Word};
use std::alloc::Global;

/// The options up to the bracket that closes a marker; none where it is closed at once.
#[tactic(auto, unfolding(crate::specs::Markers::options_at))]
pub fn options(alloc: Global, tokens: &[Lexeme]) -> Result<(List<RawOption>, &[Lexeme]), Unread>
    ensures { Gives (λ x. (x.0, x.1.now)) result (options_at tokens.now) }
{
    match tokens {
        [Lexeme::Close(Bracket::Round, _), ..] => Ok((List::new(alloc), tokens)),
        _ => some_options(alloc, tokens),
    }
}

// Options with commas between them.
fn some_options(alloc: Global, tokens: &[Lexeme]) -> Result<(List<RawOption>, &[Lexeme]), Unread>
    ensures { Gives (λ x. (x.0, x.1.now)) result (options_from (length tokens.now) [] tokens.now) }
{
    let mut options = List::new(alloc);
    let mut rest = tokens;
    for _ in 0..tokens.len() {
        let (one, after) = option(alloc, rest)?;
        options.push(one)?;
        let Some(next) = after_comma(after) else {
            return Ok((options, after));
        };
        rest = next;
    }
    Err(Unread::Ended)
}

// The tokens after a comma at the front.
fn after_comma(tokens: &[Lexeme]) -> Option<&[Lexeme]>
    ensures { option_map (λ rest. rest.now) result ≡ comma_after tokens.now }
{
    match tokens {
        [Lexeme::Comma(_), rest @ ..] => Some(rest),
        _ => None,
    }
}

// An option, whose name is any identifier.
#[tactic(auto, unfolding(crate::specs::Markers::option_at))]
fn option(alloc: Global, tokens: &[Lexeme]) -> Result<(RawOption, &[Lexeme]), Unread>
    ensures { Gives (λ x. (x.0, x.1.now)) result (option_at tokens.now) }
{
    let [first, after @ ..] = tokens else {
        return Err(Unread::Ended);
    };
    if !first.is_identifier() {
        return Err(unexpected_token(tokens));
    }
    let (parameter, rest) = parameters(alloc, first.spot(), after)?;
    let name = first.spot().name(alloc)?;
    Ok((RawOption { name, parameter }, rest))
}

// The parameter of an option after its name: strings in brackets, or none.
#[tactic(auto, unfolding(crate::specs::Markers::parameters_at))]
fn parameters<'a>(
    alloc: Global,
    name: &TokenText,
    tokens: &'a [Lexeme],
) -> Result<(Parameter, &'a [Lexeme]), Unread>
    ensures { Gives (λ x. (x.0, x.1.now)) result (parameters_at name.now tokens.now) }
{
    let [Lexeme::Open(Bracket::Round, _), rest @ ..] = tokens else {
        return Ok((Parameter::Absent, tokens));
    };
    let (text, rest) = strings(alloc, rest)?;
    let rest = close_round(rest)?;
    let parameter = parameter(alloc, name, text.as_slice())?;
    Ok((parameter, rest))
}

// The parameter that the joined strings of an option are.
fn parameter(alloc: Global, name: &TokenText, text: &[u8]) -> Result<Parameter, Unread>
    ensures { GivesBefore result (parameter_at name.now (unescaped false text.now)) }
{
    let Some(text) = unescape(alloc, text)? else {
        return Err(Unread::Fault {
            number: BAD_EXPR,
            at: name.start,
        });
    };
    if text.is_empty() {
        return Ok(Parameter::Absent);
    }
    if takes_expression(&name.word) {
        return expression(alloc, name, text.as_slice());
    }
    Ok(Parameter::Text(text))
}

// Whether the text of an option is an expression.
fn takes_expression(name: &Word) -> bool
    ensures { result ≡ takes_expression name.now }
{
    name.is("length")
        || name.is("desc")
        || name.is("tag")
        || name.is("string_length")
        || name.is("chain_next")
        || name.is("chain_prev")
        || name.is("chain_circular")
}

// The expression that a text is. Its fault stands at the name of the option.
fn expression(alloc: Global, name: &TokenText, text: &[u8]) -> Result<Parameter, Unread>
    ensures { GivesBefore result (expression_at name.now.start (expression_of text.now)) }
{
    match gt_expr::read(alloc, 0, 0, text) {
        Ok(tree) => Ok(Parameter::Expression(tree)),
        Err(Stop::Memory) => Err(Unread::Memory),
        Err(Stop::At(fault)) => Err(Unread::Fault {
            number: fault.number,
            at: name.start,
        }),
    }
}
