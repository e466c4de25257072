ghost use Rattle.std.specs.Prelude.{◌≡◌, ◌≤◌, ◌<◌, ◌^◌, pos, length, All, IsTrue, MatchOption};
ghost use Rattle.std.specs.Option.{option_map};
ghost use Rattle.std.specs.Char.{is_digit};
ghost use Rattle.std.specs.List.{list_all};
ghost use Rattle.gt_text.specs.Integer.{digits_of, is_suffix_of, value_of, numeral_of, integer_of};

/// The value of an integer literal of C (C11, 6.4.4.1): decimal digits that do not begin with 0, `0` and octal digits,
/// or `0x` or `0X` and hexadecimal digits, then any number of the letters u, U, l and L. None where the text is
/// anything else, or the value is 2 to the 63 or more.
#[tactic(auto, unfolding(crate::specs::Integer::integer_of))]
pub fn integer_value(text: &[u8]) -> Option<i64>
    ensures value { result ≡ option_map pos (integer_of text.now) }
{
    match text {
        [b'0', b'x' | b'X', digits @ ..] => numeral(16, digits),
        [b'0', ..] => numeral(8, text),
        _ => numeral(10, text),
    }
}

// What digits of a base and then a suffix are worth.
fn numeral(base: u32, text: &[u8]) -> Option<i64>
    requires { (8 ≤ base) × (base ≤ 16) }
    ensures { result ≡ option_map pos (numeral_of base text.now) }
{
    let (digits, suffix) = text.split_at(digit_count(base, text));
    if digits.is_empty() || !is_suffix(suffix) {
        return None;
    }
    digits_value(base, digits)
}

// How many digits of a base stand at the front.
fn digit_count(base: u32, text: &[u8]) -> usize
    requires { (8 ≤ base) × (base ≤ 16) }
    ensures { result ≡ length (digits_of base text.now) }
{
    text.iter()
        .take_while(|c| char::from(**c).is_digit(base))
        .count()
}

fn is_suffix(text: &[u8]) -> bool
    ensures { result ≡ is_suffix_of text.now }
{
    text.iter().all(|c| matches!(c, b'u' | b'U' | b'l' | b'L'))
}

// The value of digits, or None from 2 to the 63 on.
fn digits_value(base: u32, digits: &[u8]) -> Option<i64>
    requires known { (8 ≤ base) × (base ≤ 16) }
    requires digits { IsTrue (list_all (λ c. is_digit c base) digits.now) }
    ensures { MatchOption result (2 ^ 63 ≤ value_of base digits.now) (λ v. (v ≡ pos (value_of base digits.now)) × (value_of base digits.now < 2 ^ 63)) }
{
    let mut value: u64 = 0;
    for c in digits {
        let digit = char::from(*c).to_digit(base)?;
        value = value
            .checked_mul(u64::from(base))?
            .checked_add(u64::from(digit))?;
    }
    i64::try_from(value).ok()
}
