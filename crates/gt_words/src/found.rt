// What the matches of the command ask for.
ghost use Rattle.std.specs.Prelude.{◌≡◌, [], IfOk, unwrap_or};
ghost use Rattle.std.specs.Option.{option_map};
ghost use Rattle.clap.specs.Matches.{found_of};
ghost use Rattle.clap.specs.Walk.{rows_of, first_of, all_of, texts as texts_after};
ghost use Rattle.gt_words.specs.Calls.{number_or_of, settings_of, name_of, names_of, headers_of, generated_of, generated_call as generated_call_of, file_call as file_call_of, script_call as script_call_of, found_call as found_call_of};

use crate::number::{digits_in, number_in};
use crate::{
    Call, DEFAULT_MIN_EXPAND, DEFAULT_MIN_HEAPSIZE, DEFAULT_PAGES, MAX_GENERATED,
    MAX_GENERATED_DIGITS, Script, Settings,
};
use clap::ArgMatches;
use gt_space::{MAX_PAGES, MIN_PAGES};
use gt_types::{List, MAX_HEADERS, MAX_MIN_EXPAND, MAX_MIN_HEAPSIZE, Word};
use std::alloc::{AllocError, Global};

/// The call that the matches ask for, where each of its parts has its form and range.
#[tactic(auto, unfolding(crate::specs::Calls::found_call))]
pub fn found_call(alloc: Global, matches: &ArgMatches<'_>) -> Result<Option<Call>, AllocError>
    ensures { IfOk result (λ found. found ≡ found_call_of (rows_of (found_of matches.now))) }
{
    let Some(settings) = settings(matches) else {
        return Ok(None);
    };
    let Some(script) = value(matches, "script") else {
        return Ok(None);
    };
    match values(matches, "header") {
        Some(headers) => script_call(alloc, settings, script, headers),
        None => script_call(alloc, settings, script, &[]),
    }
}

// The first value of an argument.
fn value<'a>(matches: &ArgMatches<'a>, id: &str) -> Option<&'a str>
    ensures { option_map (λ s. s.now) result ≡ first_of id.now (rows_of (found_of matches.now)) }
{
    matches.get_str(id)
}

// All values of an argument, where it is given.
fn values<'b, 'a>(matches: &'b ArgMatches<'a>, id: &str) -> Option<&'b [&'a str]>
    ensures { option_map (λ s. texts_after s.now) result ≡ all_of id.now (rows_of (found_of matches.now)) }
{
    matches.get_strs(id)
}

#[tactic(auto, unfolding(crate::specs::Calls::settings_of))]
fn settings(matches: &ArgMatches<'_>) -> Option<Settings>
    ensures { result ≡ settings_of (rows_of (found_of matches.now)) }
{
    let pages = number_or(DEFAULT_PAGES, MIN_PAGES, MAX_PAGES, value(matches, "space"))?;
    let min_expand = number_or(
        DEFAULT_MIN_EXPAND,
        0,
        MAX_MIN_EXPAND,
        value(matches, "min-expand"),
    )?;
    let min_heapsize = number_or(
        DEFAULT_MIN_HEAPSIZE,
        0,
        MAX_MIN_HEAPSIZE,
        value(matches, "min-heapsize"),
    )?;
    Some(Settings {
        pages,
        min_expand,
        min_heapsize,
    })
}

// The number of an option in its range, or the default where the option is not given.
#[tactic(auto, unfolding(crate::specs::Calls::number_or_of))]
fn number_or(default: u32, least: u32, most: u32, text: Option<&str>) -> Option<u32>
    ensures { result ≡ number_or_of default least most (option_map (λ s. s.now) text.entry) }
{
    match text {
        None => Some(default),
        Some(text) => number_in(least, most, text.as_bytes()),
    }
}

#[tactic(auto, unfolding(crate::specs::Calls::script_call))]
fn script_call(
    alloc: Global,
    settings: Settings,
    script: &str,
    headers: &[&str],
) -> Result<Option<Call>, AllocError>
    ensures { IfOk result (λ found. found ≡ script_call_of settings script.now (texts_after headers.now)) }
{
    match script.as_bytes() {
        [] => Ok(None),
        [b':', digits @ ..] => generated_call(alloc, settings, script, digits, headers),
        _ => file_call(alloc, settings, script, headers),
    }
}

#[tactic(auto, unfolding(crate::specs::Calls::generated_call))]
fn generated_call(
    alloc: Global,
    settings: Settings,
    word: &str,
    digits: &[u8],
    headers: &[&str],
) -> Result<Option<Call>, AllocError>
    ensures { IfOk result (λ found. found ≡ generated_call_of settings word.now digits.now (texts_after headers.now)) }
{
    if !headers.is_empty() {
        return Ok(None);
    }
    let Some(n) = generated_number(digits) else {
        return Ok(None);
    };
    let word = Word::of(alloc, word)?;
    Ok(Some(Call {
        settings,
        script: Script::Generated { word, n },
        headers: List::new(alloc),
    }))
}

#[tactic(auto, unfolding(crate::specs::Calls::generated_of))]
fn generated_number(digits: &[u8]) -> Option<u32>
    ensures { result ≡ generated_of digits.now }
{
    if digits.len() > MAX_GENERATED_DIGITS {
        return None;
    }
    digits_in(0, MAX_GENERATED, digits)
}

#[tactic(auto, unfolding(crate::specs::Calls::file_call))]
fn file_call(
    alloc: Global,
    settings: Settings,
    script: &str,
    headers: &[&str],
) -> Result<Option<Call>, AllocError>
    ensures { IfOk result (λ found. found ≡ file_call_of settings script.now (texts_after headers.now)) }
{
    let Some(name) = name(alloc, script)? else {
        return Ok(None);
    };
    let Some(headers) = header_names(alloc, headers)? else {
        return Ok(None);
    };
    Ok(Some(Call {
        settings,
        script: Script::File(name),
        headers,
    }))
}

#[tactic(auto, unfolding(crate::specs::Calls::headers_of))]
fn header_names(alloc: Global, texts: &[&str]) -> Result<Option<List<Word>>, AllocError>
    ensures { IfOk result (λ found. found ≡ headers_of (texts_after texts.now)) }
{
    if texts.is_empty() || texts.len() > MAX_HEADERS {
        return Ok(None);
    }
    names(alloc, texts)
}

// The words, where each of them names a file.
fn names(alloc: Global, texts: &[&str]) -> Result<Option<List<Word>>, AllocError>
    ensures { IfOk result (λ found. found ≡ names_of (texts_after texts.now)) }
{
    let mut names = Vec::new(alloc);
    for text in texts {
        let Some(name) = name(alloc, text)? else {
            return Ok(None);
        };
        names.push(name)?;
    }
    Ok(Some(List::of(names)))
}

// The word, where it names a file.
#[tactic(auto, unfolding(crate::specs::Calls::name_of))]
fn name(alloc: Global, text: &str) -> Result<Option<Word>, AllocError>
    ensures { IfOk result (λ found. found ≡ name_of text.now) }
{
    if text.is_empty() {
        return Ok(None);
    }
    Ok(Some(Word::of(alloc, text)?))
}
