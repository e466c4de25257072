// Numbers.
ghost use Rattle.std.specs.Prelude.{◌≡◌, ◌≤◌, ◌<◌, ◌^◌, length, pos, IsTrue, MatchOption};
ghost use Rattle.std.specs.Option.{option_map};
ghost use Rattle.std.specs.Char.{is_digit};
ghost use Rattle.std.specs.List.{list_all};
ghost use Rattle.gt_text.specs.Integer.{value_of};
ghost use Rattle.gt_split.specs.Numbers.{digits_at, decimal_at, natural_at, negative_at, integer_at};
ghost use Rattle.gt_split.specs.Texts.{leads_with_zero};

use crate::Number;

const LARGEST_NEGATIVE: u64 = 1 << 63;

/// The integer that a text is, decimal or hexadecimal, from -2^63 to 2^64 - 1; None where it is none.
#[tactic(auto, unfolding(crate::specs::Numbers::integer_at, crate::specs::Texts::following))]
pub fn integer(text: &[u8]) -> Option<Number>
    ensures { result ≡ integer_at text.now }
{
    match text.strip_prefix(b"-") {
        Some(text) => negative(text),
        None => natural(text).map(Number::natural),
    }
}

#[tactic(auto, unfolding(crate::specs::Numbers::negative_at))]
fn negative(text: &[u8]) -> Option<Number>
    ensures { result ≡ negative_at text.now }
{
    let number = natural(text)?;
    if number > LARGEST_NEGATIVE {
        return None;
    }
    Some(Number::negative(number))
}

#[tactic(auto, unfolding(crate::specs::Numbers::natural_at, crate::specs::Texts::following))]
fn natural(text: &[u8]) -> Option<u64>
    ensures { result ≡ natural_at text.now }
{
    match text.strip_prefix(b"0x") {
        Some(text) => digits(16, text),
        None => decimal(text),
    }
}

/// The decimal number that a text is, without leading zeros and below 2^64; None where it is none.
#[tactic(auto, unfolding(crate::specs::Numbers::decimal_at))]
pub fn decimal(text: &[u8]) -> Option<u64>
    ensures { result ≡ decimal_at text.now }
{
    if leads_with_zero(text) {
        return None;
    }
    digits(10, text)
}

fn leads_with_zero(text: &[u8]) -> bool
    ensures { result ≡ leads_with_zero text.now }
{
    match text {
        [first, _, ..] => *first == b'0',
        _ => false,
    }
}

#[tactic(auto, unfolding(crate::specs::Numbers::digits_at))]
fn digits(base: u32, text: &[u8]) -> Option<u64>
    requires { (8 ≤ base) × (base ≤ 16) }
    ensures { result ≡ digits_at base text.now }
{
    if text.is_empty() || !all_digits(base, text) {
        return None;
    }
    digits_value(base, text)
}

fn all_digits(base: u32, text: &[u8]) -> bool
    requires { (8 ≤ base) × (base ≤ 16) }
    ensures { result ≡ list_all (λ c. is_digit c base) text.now }
{
    text.iter().all(|c| char::from(*c).is_digit(base))
}

// What digits are worth, or None from 2^64 on.
fn digits_value(base: u32, digits: &[u8]) -> Option<u64>
    requires known { (8 ≤ base) × (base ≤ 16) }
    requires digits { IsTrue (list_all (λ c. is_digit c base) digits.now) }
    ensures { MatchOption result (2 ^ 64 ≤ value_of base digits.now) (λ v. v ≡ value_of base digits.now) }
{
    let mut value: u64 = 0;
    for c in digits {
        let digit = char::from(*c).to_digit(base)?;
        value = value
            .checked_mul(u64::from(base))?
            .checked_add(u64::from(digit))?;
    }
    Some(value)
}
