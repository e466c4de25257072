ghost use Rattle.std.specs.Prelude.{◌≡◌, ◌≤◌, ◌^◌, MatchOption};
ghost use Rattle.std.specs.List.{list_all};
ghost use Rattle.std.specs.Char.{is_ascii_digit};
ghost use Rattle.gt_words.specs.Numbers.{is_decimal_of, value_of, digits_in as digits_in_of, has_leading_zero_of, number_in as number_in_of};

/// The number of decimal digits without a sign or a leading zero, from `least` to `most`; None where the text is anything
/// else.
#[tactic(auto, unfolding(crate::specs::Numbers::number_in))]
pub fn number_in(least: u32, most: u32, text: &[u8]) -> Option<u32>
    ensures { result ≡ number_in_of least most text.now }
{
    if has_leading_zero(text) {
        return None;
    }
    digits_in(least, most, text)
}

/// The number of decimal digits without a sign, from `least` to `most`; None where the text is anything else.
#[tactic(auto, unfolding(crate::specs::Numbers::digits_in))]
pub fn digits_in(least: u32, most: u32, text: &[u8]) -> Option<u32>
    ensures { result ≡ digits_in_of least most text.now }
{
    if !is_decimal(text) {
        return None;
    }
    let value = value(text)?;
    if least <= value && value <= most {
        return Some(value);
    }
    None
}

#[tactic(auto, unfolding(crate::specs::Numbers::has_leading_zero_of))]
fn has_leading_zero(text: &[u8]) -> bool
    ensures { result ≡ has_leading_zero_of text.now }
{
    matches!(text, [b'0', _, ..])
}

// Whether the text is one digit or more, and nothing else.
#[tactic(auto, unfolding(crate::specs::Numbers::is_decimal_of))]
fn is_decimal(text: &[u8]) -> bool
    ensures { result ≡ is_decimal_of text.now }
{
    !text.is_empty() && are_digits(text)
}

fn are_digits(text: &[u8]) -> bool
    ensures { result ≡ list_all is_ascii_digit text.now }
{
    text.iter().all(|c| c.is_ascii_digit())
}

// What digits write, or None from 2 to the 32 on.
fn value(digits: &[u8]) -> Option<u32>
    ensures { MatchOption result (2 ^ 32 ≤ value_of digits.now) (λ v. v ≡ value_of digits.now) }
{
    let mut value: u32 = 0;
    for c in digits {
        value = value
            .checked_mul(10)?
            .checked_add(u32::from(c.saturating_sub(b'0')))?;
    }
    Some(value)
}
