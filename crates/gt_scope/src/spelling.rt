// Types as they are spelled, with the names of the fixed table as numbers.
ghost use Rattle.std.specs.Prelude.{◌≡◌, IsTrue, IfOk, Some};
ghost use Rattle.std.specs.List.{list_all};
ghost use Rattle.std.specs.Char.{is_ascii};
ghost use Rattle.std.specs.Str.{bytes_eq};
ghost use Rattle.gt_types.specs.declared.types.Scalar.TheVariants as scalar;
ghost use Rattle.gt_scope.specs.Spelling.{integer, is_signed, width_of, double_of, combined, fixed_of, spelled_name, spelled_of};

use crate::types::Spelled;
use gt_items::{Combination, Core, RawType, Sign, Size};
use gt_types::{Copied, Scalar, Width, Word};
use std::alloc::{AllocError, Global};

/// A type as it is spelled. Its only error is out of memory.
#[tactic(auto, unfolding(crate::specs::Spelling::spelled_of))]
pub fn spelling_of(alloc: Global, ty: &RawType) -> Result<Spelled, AllocError>
    ensures { IfOk result (λ s. s ≡ spelled_of ty.now) }
{
    match ty {
        RawType::Words(words) => Ok(spelling_of_words(*words)),
        RawType::UnsignedHostWide => Ok(integer(Width::W8, false)),
        RawType::Tagged { keyword, tag } => Ok(Spelled::Tagged {
            keyword: *keyword,
            tag: tag.word.copy(alloc)?,
        }),
        RawType::Named(name) => spelled_name(alloc, &name.word),
    }
}

/// The number that a name of the fixed table is, or None for any other name.
#[tactic(auto, unfolding(crate::specs::Spelling::fixed_of))]
pub fn fixed_scalar(word: &Word) -> Option<Scalar>
    ensures { result ≡ fixed_of word.now }
{
    if is_word(word, "HOST_WIDE_INT") || is_word(word, "int64_t") {
        int(Width::W8, true)
    } else if is_word(word, "size_t") || is_word(word, "uint64_t") {
        int(Width::W8, false)
    } else if is_word(word, "int8_t") {
        int(Width::W1, true)
    } else if is_word(word, "int16_t") {
        int(Width::W2, true)
    } else if is_word(word, "int32_t") {
        int(Width::W4, true)
    } else if is_word(word, "uint8_t") {
        int(Width::W1, false)
    } else if is_word(word, "uint16_t") {
        int(Width::W2, false)
    } else if is_word(word, "uint32_t")
        || is_word(word, "location_t")
        || is_word(word, "BOOL_BITFIELD")
    {
        int(Width::W4, false)
    } else {
        None
    }
}

fn int(width: Width, signed: bool) -> Option<Scalar>
    ensures { result ≡ Some (scalar.Int width signed) }
{
    Some(Scalar::Int { width, signed })
}

// Whether a word is this one of ASCII characters.
fn is_word(word: &Word, ascii: &str) -> bool
    requires { IsTrue (list_all is_ascii ascii.now) }
    ensures { result ≡ bytes_eq ascii.now word.now }
{
    ascii == word.as_str()
}

// A name: a number of the fixed table, or a name that is to be looked up.
fn spelled_name(alloc: Global, word: &Word) -> Result<Spelled, AllocError>
    ensures { IfOk result (λ s. s ≡ spelled_name word.now) }
{
    match fixed_scalar(word) {
        Some(scalar) => Ok(Spelled::Number {
            scalar,
            is_char: false,
        }),
        None => Ok(Spelled::Named(word.copy(alloc)?)),
    }
}

// A combination of words.
fn spelling_of_words(words: Combination) -> Spelled
    ensures { result ≡ combined words.core words.sign words.size }
{
    match words.core {
        Core::Plain | Core::Int => integer(width(words.size), is_signed(words.sign)),
        Core::Char => Spelled::Number {
            scalar: Scalar::Int {
                width: Width::W1,
                signed: is_signed(words.sign),
            },
            is_char: true,
        },
        Core::Bool => Spelled::Number {
            scalar: Scalar::Bool,
            is_char: false,
        },
        Core::Float => Spelled::Float,
        Core::Double => double(words.size),
        Core::Void => Spelled::Sizeless,
    }
}

// An integer that is no character.
fn integer(width: Width, signed: bool) -> Spelled
    ensures { result ≡ integer width signed }
{
    Spelled::Number {
        scalar: Scalar::Int { width, signed },
        is_char: false,
    }
}

fn is_signed(sign: Sign) -> bool
    ensures { result ≡ is_signed sign }
{
    match sign {
        Sign::Plain | Sign::Signed => true,
        Sign::Unsigned => false,
    }
}

fn width(size: Size) -> Width
    ensures { result ≡ width_of size }
{
    match size {
        Size::Plain => Width::W4,
        Size::Short => Width::W2,
        Size::Long | Size::LongLong => Width::W8,
    }
}

fn double(size: Size) -> Spelled
    ensures { result ≡ double_of size }
{
    match size {
        Size::Plain | Size::Short => Spelled::Double,
        Size::Long | Size::LongLong => Spelled::Sizeless,
    }
}
