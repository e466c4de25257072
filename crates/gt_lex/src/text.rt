// Texts from their first character on.
ghost use Rattle.std.specs.Prelude.{◌≡◌, ◌<◌, ◌≤◌, ◌-◌, ◌^◌, ℕ, Bool, [], ◌∷◌, length, take, drop, MatchOption};
ghost use Rattle.std.specs.Str.{chars, IsUtf8};
ghost use Rattle.gt_lex.specs.Characters.{first_is};

/// The first character of a text, and what follows it.
pub fn first(text: &str) -> Option<(char, &str)>
    ensures { MatchOption result (chars text.now ≡ [])
        (λ r. (chars text.now ≡ r.0 ∷ chars r.1.now) × (length r.1.now < length text.now) × IsUtf8 r.1.now) }
{
    let mut characters = text.chars();
    let c = characters.next()?;
    Some((c, characters.as_str()))
}

/// Whether a text begins with a character.
pub fn first_is(c: char, text: &str) -> bool
    ensures { result ≡ first_is c (chars text.now) }
{
    match first(text) {
        Some((found, _)) => found == c,
        None => false,
    }
}

/// What follows the first character, where there is one.
pub fn tail(text: &str) -> &str
    ensures { chars result.now ≡ drop 1 (chars text.now) }
{
    match first(text) {
        Some((_, rest)) => rest,
        None => text,
    }
}

/// The offset of a rest of a text that has `whole` bytes.
pub fn place(whole: usize, rest: &str) -> u32
    requires within { length rest.now ≤ whole }
    requires fits { whole < 2 ^ 32 }
    ensures { result ≡ whole - length rest.now }
{
    (whole - rest.len()) as u32
}

/// The bytes of a text up to a rest of it.
pub fn before<'a>(text: &'a str, rest: &str) -> &'a [u8]
    requires { length rest.now ≤ length text.now }
    ensures { result.now ≡ take (length text.now - length rest.now) text.now }
{
    &text.as_bytes()[..text.len() - rest.len()]
}
