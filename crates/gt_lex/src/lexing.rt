// The tokens and constants of a text.
ghost use Rattle.std.specs.Prelude.{◌≡◌, ◌<◌, ◌^◌, List, length, MatchResult, IfOk, IfErr};
ghost use Rattle.gt_types.specs.declared.faults.Fault.{Fault};
ghost use Rattle.gt_lex.specs.declared.tokens.Token.{Token};
ghost use Rattle.gt_lex.specs.declared.tokens.Define.{Define};
ghost use Rattle.gt_lex.specs.Texts.{IsLexed, IsFirstFault, IsStop, GivesTokens, GivesFault};

use crate::faults::BAD_UTF8;
use crate::pieces::next_piece;
use crate::text::place;
use crate::tokens::Lexed;
use gt_types::{Fault, List, Stop};
use std::alloc::Global;

// The pieces of a text, one after another.
fn scan(alloc: Global, file: u32, text: &str) -> Result<Lexed, Stop>
    requires { length text.now < 2 ^ 32 }
    ensures { MatchResult result (λ lexed. IsLexed text.now lexed.tokens lexed.defines) (IsStop file text.now) }
{
    let whole = text.len();
    let mut tokens = Vec::new(alloc);
    let mut defines = Vec::new(alloc);
    let mut fresh = true;
    let mut rest = text;
    'pieces: loop {
        match next_piece(whole, fresh, rest) {
            Ok(Some((found, after))) => {
                let start = place(whole, rest);
                let end = place(whole, after);
                found.add_to(start, end, &mut tokens, &mut defines)?;
                fresh = found.keeps_fresh(fresh);
                rest = after;
            }
            Ok(None) => {
                return Ok(Lexed {
                    tokens: List::of(tokens),
                    defines: List::of(defines),
                });
            }
            Err((number, fault)) => {
                let at = place(whole, fault);
                return Err(Stop::At(Fault { number, file, at }));
            }
        }
    }
}

// The same of bytes, which may be no text.
fn read(alloc: Global, file: u32, text: &[u8]) -> Result<Lexed, Stop>
    requires { length text.now < 2 ^ 32 }
    ensures tokens { IfOk result (λ lexed. IsLexed text.now lexed.tokens lexed.defines) }
    ensures fault { IfErr result (IsStop file text.now) }
{
    match str::from_utf8(text) {
        Ok(text) => scan(alloc, file, text),
        Err(e) => Err(Stop::At(Fault {
            number: BAD_UTF8,
            file,
            at: e.valid_up_to() as u32,
        })),
    }
}

/// The tokens of a text of fewer than 2 to the 32 bytes, and the constants of its directives `#define NAME INTEGER`.
/// Otherwise out of memory, or the text's first fault, at its byte offset in the file that the caller names:
/// `BAD_UTF8`, or the earliest `OPEN_COMMENT`, `OPEN_STRING` or `BAD_NUMBER`. Comments and directives are as in C
/// (C11, 6.4.9 and 6.10), but a backslash continues a line in directives alone.
pub fn lex(alloc: Global, file: u32, text: &[u8]) -> Result<Lexed, Stop>
    requires { length text.now < 2 ^ 32 }

    // What is answered is so: the tokens and constants of the text, or its first fault.
    ensures tokens { IfOk result (λ lexed. IsLexed text.now lexed.tokens lexed.defines) }
    ensures fault { IfErr result (IsStop file text.now) }

    // What is so is answered, unless memory runs out.
    ensures all_tokens { (tokens : List Token) (defines : List Define) →
        IsLexed text.now tokens defines → GivesTokens result tokens defines }
    ensures each_fault { (first : Fault) → first.file ≡ file →
        IsFirstFault text.now first.number first.at → GivesFault result first }
{
    read(alloc, file, text)
}
