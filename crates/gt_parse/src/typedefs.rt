// Unmarked typedefs.
ghost use Rattle.std.specs.Prelude.{◌≡◌, [], length, None, IfOk};
ghost use Rattle.std.specs.Option.{option_map};
ghost use Rattle.gt_search.specs.Lexemes.{name_of};
ghost use Rattle.gt_marked.specs.Outcome.{Gives};
ghost use Rattle.gt_parse.specs.Unmarked.{body_at, plain_meaning_at, tagged_meaning_at, keyword_meaning_at, bare_meaning_at, meaning_at, aliases_from, first_form_at, last_name, opens_round, after_round, starred_name, opaque_name, opaque_typedef, typedef_at};

use crate::enums::enum_body;
use gt_items::{Alias, Item, Keyword, Meaning, Name, RawTypedef, Stars};
use gt_marked::{
    Context, Unread, alias, base_type, depth_after, goes_on, inside, unexpected_token,
    without_qualifiers,
};
use gt_search::{Bracket, Lexeme, TokenText};
use gt_types::List;
use std::alloc::{AllocError, Global};

/// What an unmarked typedef declares, after the word: a type and names, or else one opaque name.
#[tactic(auto, unfolding(crate::specs::Unmarked::typedef_at))]
pub fn typedef_item(alloc: Global, tokens: &[Lexeme]) -> Result<Option<Item>, AllocError>
    ensures { IfOk result (λ found. found ≡ typedef_at tokens.now) }
{
    match first_form(alloc, tokens) {
        Ok((found, _)) => Ok(Some(Item::Typedef(found))),
        Err(Unread::Memory) => Err(AllocError),
        Err(Unread::Ended | Unread::Fault { .. }) => opaque_typedef(alloc, opaque_name(tokens)),
    }
}

// A type, which may be defined here, and names with commas between them.
#[tactic(auto, unfolding(crate::specs::Unmarked::first_form_at))]
fn first_form(alloc: Global, tokens: &[Lexeme]) -> Result<(RawTypedef, &[Lexeme]), Unread>
    ensures { Gives (λ x. (x.0, x.1.now)) result (first_form_at tokens.now) }
{
    let (means, rest) = meaning(alloc, tokens)?;
    let (names, rest) = aliases(alloc, rest)?;
    Ok((RawTypedef { means, names }, rest))
}

// Names with commas between them and a semicolon after them.
fn aliases(alloc: Global, tokens: &[Lexeme]) -> Result<(List<Alias>, &[Lexeme]), Unread>
    ensures { Gives (λ x. (x.0, x.1.now)) result (aliases_from (length tokens.now) [] tokens.now) }
{
    let mut names = List::new(alloc);
    let mut rest = tokens;
    for _ in 0..tokens.len() {
        let (one, after) = alias(alloc, rest)?;
        names.push(one)?;
        let (goes_on, after) = goes_on(after)?;
        if !goes_on {
            return Ok((names, after));
        }
        rest = after;
    }
    Err(Unread::Ended)
}

// What a typedef means: a type, or one with a body.
#[tactic(auto, unfolding(crate::specs::Unmarked::meaning_at))]
fn meaning(alloc: Global, tokens: &[Lexeme]) -> Result<(Meaning, &[Lexeme]), Unread>
    ensures { Gives (λ x. (x.0, x.1.now)) result (meaning_at tokens.now) }
{
    bare_meaning(alloc, without_qualifiers(tokens))
}

#[tactic(auto, unfolding(crate::specs::Unmarked::bare_meaning_at))]
fn bare_meaning(alloc: Global, tokens: &[Lexeme]) -> Result<(Meaning, &[Lexeme]), Unread>
    ensures { Gives (λ x. (x.0, x.1.now)) result (bare_meaning_at tokens.now) }
{
    match tokens {
        [Lexeme::Tag(keyword, _), after @ ..] => {
            keyword_meaning(alloc, *keyword, tokens, without_qualifiers(after))
        }
        _ => plain_meaning(alloc, tokens),
    }
}

// What stands after a keyword: a body without a tag, a tag, or else no type.
fn keyword_meaning<'a>(
    alloc: Global,
    keyword: Keyword,
    whole: &'a [Lexeme],
    tokens: &'a [Lexeme],
) -> Result<(Meaning, &'a [Lexeme]), Unread>
    ensures { Gives (λ x. (x.0, x.1.now)) result (keyword_meaning_at keyword whole.now tokens.now) }
{
    match tokens {
        [Lexeme::Open(Bracket::Brace, _), rest @ ..] => body(alloc, keyword, None, rest),
        [Lexeme::Name(spot), after @ ..] => {
            let tag = spot.name(alloc)?;
            tagged_meaning(alloc, keyword, tag, whole, without_qualifiers(after))
        }
        _ => Err(unexpected_token(tokens)),
    }
}

// What stands after a keyword and a tag: a body, or else the type ends here.
fn tagged_meaning<'a>(
    alloc: Global,
    keyword: Keyword,
    tag: Name,
    whole: &'a [Lexeme],
    tokens: &'a [Lexeme],
) -> Result<(Meaning, &'a [Lexeme]), Unread>
    ensures { Gives (λ x. (x.0, x.1.now)) result (tagged_meaning_at keyword tag whole.now tokens.now) }
{
    match tokens {
        [Lexeme::Open(Bracket::Brace, _), rest @ ..] => body(alloc, keyword, Some(tag), rest),
        _ => plain_meaning(alloc, whole),
    }
}

// A structure or an enum with a body, after its brace.
#[tactic(auto, unfolding(crate::specs::Unmarked::body_at))]
fn body(
    alloc: Global,
    keyword: Keyword,
    tag: Option<Name>,
    tokens: &[Lexeme],
) -> Result<(Meaning, &[Lexeme]), Unread>
    ensures { Gives (λ x. (x.0, x.1.now)) result (body_at keyword tag tokens.now) }
{
    match keyword {
        Keyword::Struct | Keyword::Union => {
            let (_, rest) = inside(tokens)?;
            Ok((Meaning::Body { keyword, tag }, without_qualifiers(rest)))
        }
        Keyword::Enum => {
            let (found, rest) = enum_body(alloc, tag, tokens)?;
            Ok((Meaning::Enum(found), without_qualifiers(rest)))
        }
    }
}

// A type without a body.
#[tactic(auto, unfolding(crate::specs::Unmarked::plain_meaning_at))]
fn plain_meaning(alloc: Global, tokens: &[Lexeme]) -> Result<(Meaning, &[Lexeme]), Unread>
    ensures { Gives (λ x. (x.0, x.1.now)) result (plain_meaning_at tokens.now) }
{
    let (ty, rest) = base_type(alloc, Context::Elsewhere, tokens)?;
    Ok((Meaning::Type(ty), rest))
}

// A typedef of one opaque name; without a name it declares nothing.
fn opaque_typedef(alloc: Global, spot: Option<&TokenText>) -> Result<Option<Item>, AllocError>
    ensures { IfOk result (λ found. found ≡ opaque_typedef (option_map (λ s. name_of s.now) spot.entry)) }
{
    let Some(spot) = spot else {
        return Ok(None);
    };
    let mut names = List::new(alloc);
    names.push(Alias {
        stars: Stars::Zero,
        name: spot.name(alloc)?,
    })?;
    let means = Meaning::Opaque;
    Ok(Some(Item::Typedef(RawTypedef { means, names })))
}

// The one opaque name: where a star stands directly after the first round bracket, the name after the stars there; otherwise
// the last name.
fn opaque_name(tokens: &[Lexeme]) -> Option<&TokenText>
    ensures { option_map (λ s. name_of s.now) result ≡ opaque_name tokens.now (after_round 0 tokens.now) }
{
    match after_round(tokens) {
        [Lexeme::Star(_), following @ ..] => starred_name(following),
        _ => last_name(tokens),
    }
}

// The name after stars.
#[tactic(auto, unfolding(crate::specs::Unmarked::starred_name))]
fn starred_name(tokens: &[Lexeme]) -> Option<&TokenText>
    ensures { option_map (λ s. name_of s.now) result ≡ starred_name tokens.now }
{
    let mut rest = tokens;
    loop {
        match rest {
            [Lexeme::Star(_) | Lexeme::Qualifier(_), after @ ..] => rest = after,
            [Lexeme::Name(spot), ..] => return Some(spot),
            _ => return None,
        }
    }
}

// The tokens after the first round bracket that opens in no other bracket; none where there is no such bracket.
fn after_round(tokens: &[Lexeme]) -> &[Lexeme]
    ensures { result.now ≡ after_round 0 tokens.now }
{
    let mut depth = 0;
    for at in 0..tokens.len() {
        let token = &tokens[at];
        if depth == 0 && opens_round(token) {
            return &tokens[at + 1..];
        }
        depth = depth_after(depth, token);
    }
    &[]
}

fn opens_round(token: &Lexeme) -> bool
    ensures { result ≡ opens_round token.now }
{
    matches!(token, Lexeme::Open(Bracket::Round, _))
}

// The last name that stands in no brackets.
fn last_name(tokens: &[Lexeme]) -> Option<&TokenText>
    ensures { option_map (λ s. name_of s.now) result ≡ last_name 0 None tokens.now }
{
    let mut last = None;
    let mut depth = 0;
    for token in tokens {
        if depth == 0 {
            if let Lexeme::Name(spot) = token {
                last = Some(spot);
                continue;
            }
        }
        depth = depth_after(depth, token);
    }
    last
}
