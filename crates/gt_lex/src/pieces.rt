// The piece at the front of a text.
ghost use Rattle.std.specs.Prelude.{◌≡◌, ◌≤◌, ◌<◌, ◌-◌, ◌^◌, ◌++◌, length, MatchResult, MatchOption, OnOk, IfErr, []};
ghost use Rattle.std.specs.Str.{chars};
ghost use Rattle.gt_types.specs.declared.faults.Stop.TheVariants.{Memory};
ghost use Rattle.gt_lex.specs.Progress.{found_of, open_fault_of, fresh_with, tokens_with, defines_with, IsNext, IsRefused};

use crate::directive::directive;
use crate::extents::past;
use crate::faults::{BAD_NUMBER, OPEN_COMMENT, OPEN_STRING};
use crate::starts::{Start, text_start};
use crate::text::tail;
use crate::tokens::{Define, Kind, Token};
use gt_types::Stop;

/// What a piece of a text is: white space or a comment, a token, or a directive, which may give a constant.
#[derive(Clone, Copy)]
pub enum Found {
    Gap { newline: bool },
    Token(Kind),
    Directive(Option<Define>),
}

fn finish_part(start: Start, newline: bool) -> Found
    ensures { result ≡ found_of start newline }
{
    match start {
        Start::Token(kind) => Found::Token(kind),
        _ => Found::Gap { newline },
    }
}

// The fault of a comment or a literal that does not end.
fn open_fault(start: Start) -> u8
    ensures { result ≡ open_fault_of start }
{
    match start {
        Start::Block => OPEN_COMMENT,
        _ => OPEN_STRING,
    }
}

/// The piece at the front of a text, and what follows it; None at the text's end. Otherwise the number of the fault at
/// the front, and the text from the fault on.
pub fn next_piece(
    whole: usize,
    fresh: bool,
    text: &str,
) -> Result<Option<(Found, &str)>, (u8, &str)>
    requires within { length text.now ≤ whole }
    requires fits { whole < 2 ^ 32 }
    ensures { MatchResult result
        (λ next. MatchOption next (chars text.now ≡ []) (λ r. IsNext (whole - length text.now) fresh text.now r.0 r.1.now))
        (λ e. IsRefused fresh text.now e.0 e.1.now) }
{
    match text_start(fresh, text) {
        Start::End => Ok(None),
        Start::BadNumber => Err((BAD_NUMBER, text)),
        Start::Directive => match directive(whole, tail(text)) {
            Ok((constant, rest)) => Ok(Some((Found::Directive(constant), rest))),
            Err(open_at) => Err((OPEN_COMMENT, open_at)),
        },
        start => match past(start, text) {
            Some((newline, rest)) => Ok(Some((finish_part(start, newline), rest))),
            None => Err((open_fault(start), text)),
        },
    }
}

impl Found {
    /// Whether no token stands on the line before what follows the piece.
    pub fn keeps_fresh(self, fresh: bool) -> bool
        ensures { result ≡ fresh_with fresh self }
    {
        match self {
            Found::Gap { newline } => fresh || newline,
            Found::Token(_) => false,
            Found::Directive(_) => true,
        }
    }

    /// Adds what the piece gives, of which the bytes are those from `start` up to `end`.
    pub fn add_to(
        self,
        start: u32,
        end: u32,
        tokens: &mut Vec<Token>,
        defines: &mut Vec<Define>,
    ) -> Result<(), Stop>
        ensures tokens { OnOk result (tokens.new.items ≡ tokens.old.items ++ tokens_with self start end) }
        ensures defines { OnOk result (defines.new.items ≡ defines.old.items ++ defines_with self) }
        ensures memory { IfErr result (λ stop. stop ≡ Memory) }
    {
        match self {
            Found::Gap { .. } | Found::Directive(None) => Ok(()),
            Found::Token(kind) => {
                tokens.push(Token { kind, start, end })?;
                Ok(())
            }
            Found::Directive(Some(define)) => {
                defines.push(define)?;
                Ok(())
            }
        }
    }
}
