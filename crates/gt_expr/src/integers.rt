ghost use Rattle.std.specs.Prelude.{◌≡◌, ◌≤◌, ◌<◌, ◌+◌, ◌*◌, ◌^◌, ◌==◌, ◌||◌, nat_eq, codes, length, take, SomeIff, is_some};
ghost use Rattle.std.specs.Char.{is_digit};
ghost use Rattle.std.specs.List.{prefix_len, list_any, starts_with};
ghost use Rattle.gt_text.specs.Integer.{numeral_of, value_of};
ghost use Rattle.gt_expr.specs.Parts.{longest_up_to, integer_len};

// How long the longest integer literal is that begins a text, or 0.
pub fn integer_len(text: &[u8]) -> usize
    ensures len { result ≡ integer_len text.now }
    ensures within { result ≤ length text.now }
{
    if is_hexadecimal(text) {
        match numeral_len(16, &text[2..]) {
            0 => 1,
            len => 2 + len,
        }
    } else if text.starts_with(b"0") {
        numeral_len(8, text)
    } else {
        numeral_len(10, text)
    }
}

fn is_hexadecimal(text: &[u8]) -> bool
    ensures { result ≡ (starts_with nat_eq text.now (codes "0x") || starts_with nat_eq text.now (codes "0X")) }
{
    text.starts_with(b"0x") || text.starts_with(b"0X")
}

// How long the longest front is of digits that are worth less than 2 to the 63 and a suffix, or 0.
fn numeral_len(base: u32, text: &[u8]) -> usize
    requires { (8 ≤ base) × (base ≤ 16) }
    ensures len { result ≡ longest_up_to (λ front. is_some (numeral_of base front)) text.now (length text.now) }
    ensures within { result ≤ length text.now }
{
    match digits_len(base, text) {
        0 => 0,
        len => len + suffix_len(&text[len..]),
    }
}

// How many digits of a base begin a text that are worth less than 2 to the 63 together.
fn digits_len(base: u32, text: &[u8]) -> usize
    requires { (8 ≤ base) × (base ≤ 16) }
    ensures within { result ≤ length text.now }
    ensures digits { result ≤ prefix_len (λ c. is_digit c base) text.now }
    ensures small { value_of base (take result text.now) < 2 ^ 63 }
    ensures all { result < prefix_len (λ c. is_digit c base) text.now → 2 ^ 63 ≤ value_of base (take (result + 1) text.now) }
{
    let mut value = 0;
    for (len, c) in text.iter().enumerate() {
        let Some(digit) = char::from(*c).to_digit(base) else {
            return len;
        };
        let Some(more) = with_digit(value, base, digit) else {
            return len;
        };
        value = more;
    }
    text.len()
}

// A number with a digit more, or None from 2 to the 63 on.
fn with_digit(value: u64, base: u32, digit: u32) -> Option<u64>
    ensures { SomeIff result (value * base + digit < 2 ^ 63) (value * base + digit) }
{
    let more = value
        .checked_mul(u64::from(base))?
        .checked_add(u64::from(digit))?;
    if more < 1 << 63 { Some(more) } else { None }
}

// How many letters of a suffix begin a text.
fn suffix_len(text: &[u8]) -> usize
    ensures within { result ≤ length text.now }
    ensures len { result ≡ prefix_len (λ c. list_any (λ letter. letter == c) (codes "uUlL")) text.now }
{
    text.iter()
        .take_while(|c| matches!(**c, b'u' | b'U' | b'l' | b'L'))
        .count()
}
