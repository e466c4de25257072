// Combinations of type words, such as `unsigned long`.
ghost use Rattle.std.specs.Prelude.{◌≡◌};
ghost use Rattle.gt_marked.specs.Outcome.{Gives};
ghost use Rattle.gt_marked.specs.Types.{no_words, is_combination, checked, signed_as, sized_short, sized_long, with_core, with_word, is_unsigned_alone, words_from};

use crate::types::without_qualifiers;
use crate::unread::Unread;
use gt_items::{Combination, Core, RawType, Sign, Size};
use gt_search::{Lexeme, TypeWord, UNEXPECTED};

/// The combination of the type words at the front.
pub fn words(tokens: &[Lexeme]) -> Result<(RawType, &[Lexeme]), Unread>
    ensures { Gives (λ x. (x.0, x.1.now)) result (words_from no_words tokens.now) }
{
    let words = Combination {
        sign: Sign::Plain,
        size: Size::Plain,
        core: Core::Plain,
    };
    more_words(words, tokens)
}

// The words of a combination at the front, after those that were read.
#[tactic(auto, unfolding(crate::specs::Types::words_from))]
fn more_words(words: Combination, tokens: &[Lexeme]) -> Result<(RawType, &[Lexeme]), Unread>
    ensures { Gives (λ x. (x.0, x.1.now)) result (words_from words tokens.now) }
{
    let mut words = words;
    let mut rest = tokens;
    loop {
        match rest {
            [Lexeme::Type(word, spot), after @ ..] => {
                let Some(more) = with_word(*word, words) else {
                    return Err(Unread::Fault {
                        number: UNEXPECTED,
                        at: spot.start,
                    });
                };
                words = more;
                rest = after;
                continue;
            }
            [Lexeme::Qualifier(_), after @ ..] => {
                rest = after;
                continue;
            }
            [Lexeme::Name(spot), after @ ..] => {
                if is_unsigned_alone(words) && spot.word.is("HOST_WIDE_INT") {
                    return Ok((RawType::UnsignedHostWide, without_qualifiers(after)));
                }
                return Ok((RawType::Words(words), rest));
            }
            _ => return Ok((RawType::Words(words), rest)),
        }
    }
}

// A combination with one more word, where a type of C has them together.
fn with_word(word: TypeWord, words: Combination) -> Option<Combination>
    ensures { result ≡ with_word word words }
{
    match word {
        TypeWord::Unsigned => signed_as(Sign::Unsigned, words),
        TypeWord::Signed => signed_as(Sign::Signed, words),
        TypeWord::Short => sized_short(words),
        TypeWord::Long => sized_long(words),
        TypeWord::Int => with_core(Core::Int, words),
        TypeWord::Char => with_core(Core::Char, words),
        TypeWord::Bool => with_core(Core::Bool, words),
        TypeWord::Float => with_core(Core::Float, words),
        TypeWord::Double => with_core(Core::Double, words),
        TypeWord::Void => with_core(Core::Void, words),
    }
}

fn signed_as(sign: Sign, words: Combination) -> Option<Combination>
    ensures { result ≡ signed_as sign words }
{
    match words.sign {
        Sign::Plain => check_combination(Combination { sign, ..words }),
        Sign::Signed | Sign::Unsigned => None,
    }
}

fn sized_short(words: Combination) -> Option<Combination>
    ensures { result ≡ sized_short words }
{
    match words.size {
        Size::Plain => check_combination(Combination {
            size: Size::Short,
            ..words
        }),
        Size::Short | Size::Long | Size::LongLong => None,
    }
}

fn sized_long(words: Combination) -> Option<Combination>
    ensures { result ≡ sized_long words }
{
    match words.size {
        Size::Plain => check_combination(Combination {
            size: Size::Long,
            ..words
        }),
        Size::Long => check_combination(Combination {
            size: Size::LongLong,
            ..words
        }),
        Size::Short | Size::LongLong => None,
    }
}

fn with_core(core: Core, words: Combination) -> Option<Combination>
    ensures { result ≡ with_core core words }
{
    match words.core {
        Core::Plain => check_combination(Combination { core, ..words }),
        Core::Int | Core::Char | Core::Bool | Core::Float | Core::Double | Core::Void => None,
    }
}

// The combination where its words stand together in a type of C.
fn check_combination(words: Combination) -> Option<Combination>
    ensures { result ≡ checked words }
{
    if is_combination(words.sign, words.size, words.core) {
        Some(words)
    } else {
        None
    }
}

fn is_combination(sign: Sign, size: Size, core: Core) -> bool
    ensures { result ≡ is_combination sign size core }
{
    match core {
        Core::Plain | Core::Int => true,
        Core::Char => matches!(size, Size::Plain),
        Core::Double => matches!((sign, size), (Sign::Plain, Size::Plain | Size::Long)),
        Core::Bool | Core::Float | Core::Void => {
            matches!((sign, size), (Sign::Plain, Size::Plain))
        }
    }
}

// Whether unsigned stands there, and no other word.
fn is_unsigned_alone(words: Combination) -> bool
    ensures { result ≡ is_unsigned_alone words }
{
    matches!(
        (words.sign, words.size, words.core),
        (Sign::Unsigned, Size::Plain, Core::Plain)
    )
}
