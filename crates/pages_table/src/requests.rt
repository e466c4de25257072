//! One line of the table.
ghost use Rattle.std.specs.Prelude.{◌≡◌, IsTrue};
ghost use Rattle.gt_pages.specs.Slots.{StartsSome};

use crate::images::{are_runs, pages_for};
use crate::lists::{cached_pages, entries};
use crate::random::random_calls;
use crate::sizes::size_for;
use gt_pages::{CACHED, PageEntry, Pages, Run, SlotFail};
use std::alloc::{AllocError, Global};
use std::fmt::Write;

/// What a request gives. Blocks of `times` are all tried against the wanted address, and the first that lies elsewhere is told.
pub fn answer(
    alloc: Global,
    pages: &mut Pages,
    request: &str,
    wanted: &str,
) -> Result<String, AllocError> {
    match request.split_once(' ') {
        None => answer_word(alloc, pages, request),
        Some(("times", rest)) => made_some(alloc, pages, rest, wanted),
        Some((verb, rest)) => change(alloc, pages, verb, rest),
    }
}

// What a request of one word gives.
fn answer_word(alloc: Global, pages: &mut Pages, request: &str) -> Result<String, AllocError> {
    match request {
        "clear" => {
            pages.clear_marks();
            String::from_str(alloc, "ok")
        }
        "sweep" => swept(alloc, pages.sweep()),
        "cached" => cached(alloc, pages),
        _ => made(alloc, pages, request),
    }
}

fn swept(alloc: Global, freed: u32) -> Result<String, AllocError> {
    format!(in alloc; "{freed}")
}

// What a request gives that changes blocks or their marks.
fn change(alloc: Global, pages: &mut Pages, verb: &str, rest: &str) -> Result<String, AllocError> {
    match verb {
        "mark" => mark(alloc, pages, rest),
        "byte" => mark_owner(alloc, pages, rest),
        "postpone" => postpone(alloc, pages, rest),
        "walked" => walked(alloc, pages, rest),
        "image" => image(alloc, pages, rest),
        _ => ask(alloc, pages, verb, rest),
    }
}

// What a request gives that asks for blocks or their marks.
fn ask(alloc: Global, pages: &Pages, verb: &str, rest: &str) -> Result<String, AllocError> {
    match verb {
        "owner" => owner(alloc, pages, rest),
        "marked" => marked(alloc, pages, rest),
        "pending" => pending(alloc, pages, rest),
        _ => look(alloc, pages, verb, rest),
    }
}

// What a request gives that asks for pages, or makes a space of its own.
fn look(alloc: Global, pages: &Pages, verb: &str, rest: &str) -> Result<String, AllocError> {
    match verb {
        "room" => room(alloc, pages, number(rest)),
        "fit" => fit(alloc, pages, rest),
        "list" => list(alloc, pages, number(rest)),
        "random" => random(alloc, rest),
        _ => String::from_str(alloc, "no request"),
    }
}

/// A number; the largest one where the text is no number.
pub fn number(text: &str) -> u32 {
    text.parse::<u32>().unwrap_or(u32::MAX)
}

// An address, which is written as `0x10000000`; `None` where the text is no address.
fn address(text: &str) -> Option<u64> {
    u64::from_str_radix(text.strip_prefix("0x")?, 16).ok()
}

fn no_address(alloc: Global) -> Result<String, AllocError> {
    String::from_str(alloc, "no address")
}

// Makes a block for so many bytes.
fn made(alloc: Global, pages: &mut Pages, request: &str) -> Result<String, AllocError> {
    let Ok(bytes) = request.parse::<u32>() else {
        return String::from_str(alloc, "no request");
    };
    let Some(size) = size_for(bytes) else {
        return String::from_str(alloc, "too large");
    };
    match pages.alloc_slot(size) {
        Ok(addr) => format!(in alloc; "0x{addr:x}"),
        Err(SlotFail::Full) => String::from_str(alloc, "full"),
        Err(SlotFail::Memory) => Err(AllocError),
    }
}

// Makes `N` blocks of so many bytes, which are to lie one after another from an address on.
fn made_some(
    alloc: Global,
    pages: &mut Pages,
    rest: &str,
    wanted: &str,
) -> Result<String, AllocError> {
    let Some((times, bytes)) = rest.split_once(' ') else {
        return String::from_str(alloc, "no number");
    };
    let Some(size) = size_for(number(bytes)) else {
        return String::from_str(alloc, "too large");
    };
    let Some(first) = address(wanted) else {
        return no_address(alloc);
    };
    let mut expected = first;
    for _ in 0..number(times) {
        match pages.alloc_slot(size) {
            Ok(addr) if addr == expected => {}
            Ok(addr) => return format!(in alloc; "0x{addr:x}"),
            Err(SlotFail::Full) => return String::from_str(alloc, "full"),
            Err(SlotFail::Memory) => return Err(AllocError),
        }
        expected = expected.saturating_add(size as u64);
    }
    format!(in alloc; "0x{first:x}")
}

fn room(alloc: Global, pages: &Pages, bytes: u32) -> Result<String, AllocError> {
    let Some(size) = size_for(bytes) else {
        return String::from_str(alloc, "too large");
    };
    String::from_str(alloc, if pages.has_room(size) { "yes" } else { "no" })
}

fn owner(alloc: Global, pages: &Pages, at: &str) -> Result<String, AllocError> {
    let Some(addr) = address(at) else {
        return no_address(alloc);
    };
    match pages.owner(addr) {
        Some((start, size)) => format!(in alloc; "0x{start:x} {size}"),
        None => String::from_str(alloc, "none"),
    }
}

// An address, a walk and a count; `None` where the first word is no address.
fn marking(rest: &str) -> Option<(u64, u32, u32)> {
    let mut words = rest.split(' ');
    let addr = address(words.next().unwrap_or(""))?;
    let walk = number(words.next().unwrap_or(""));
    Some((addr, walk, number(words.next().unwrap_or(""))))
}

fn mark(alloc: Global, pages: &mut Pages, rest: &str) -> Result<String, AllocError> {
    let Some((addr, walk, count)) = marking(rest) else {
        return no_address(alloc);
    };
    if !starts(pages, addr) {
        return String::from_str(alloc, "no block");
    }
    let fresh = pages.mark(addr, walk, count);
    String::from_str(alloc, if fresh { "new" } else { "old" })
}

// Marks the block that has the byte at an address.
fn mark_owner(alloc: Global, pages: &mut Pages, rest: &str) -> Result<String, AllocError> {
    let Some((addr, walk, count)) = marking(rest) else {
        return no_address(alloc);
    };
    match pages.mark_owner(addr, walk, count) {
        Some(true) => String::from_str(alloc, "new"),
        Some(false) => String::from_str(alloc, "old"),
        None => String::from_str(alloc, "no block"),
    }
}

fn postpone(alloc: Global, pages: &mut Pages, at: &str) -> Result<String, AllocError> {
    let Some(addr) = address(at) else {
        return no_address(alloc);
    };
    if !starts(pages, addr) {
        return String::from_str(alloc, "no block");
    }
    pages.postpone(addr);
    String::from_str(alloc, "ok")
}

fn walked(alloc: Global, pages: &mut Pages, at: &str) -> Result<String, AllocError> {
    let Some(addr) = address(at) else {
        return no_address(alloc);
    };
    if !starts(pages, addr) {
        return String::from_str(alloc, "no block");
    }
    pages.set_walked(addr);
    String::from_str(alloc, "ok")
}

// Whether a block starts at an address.
fn starts(pages: &Pages, addr: u64) -> bool
    ensures { IsTrue result → StartsSome pages.now.slots addr }
{
    match pages.owner(addr) {
        Some((start, _size)) => start == addr,
        None => false,
    }
}

fn marked(alloc: Global, pages: &Pages, at: &str) -> Result<String, AllocError> {
    match address(at) {
        Some(after) => next_text(alloc, pages.next_mark(after)),
        None => no_address(alloc),
    }
}

fn pending(alloc: Global, pages: &Pages, at: &str) -> Result<String, AllocError> {
    match address(at) {
        Some(after) => next_text(alloc, pages.next_pending(after)),
        None => no_address(alloc),
    }
}

fn next_text(alloc: Global, found: Option<(u64, u32, u32)>) -> Result<String, AllocError> {
    match found {
        Some((addr, walk, count)) => format!(in alloc; "0x{addr:x} {walk} {count}"),
        None => String::from_str(alloc, "none"),
    }
}

fn fit(alloc: Global, pages: &Pages, rest: &str) -> Result<String, AllocError> {
    let (need, preferred) = rest.split_once(' ').unwrap_or(("", ""));
    match pages.fit(number(need), number(preferred)) {
        Ok(page) => format!(in alloc; "{page}"),
        Err(count) => format!(in alloc; "longest {count}"),
    }
}

fn image(alloc: Global, pages: &mut Pages, rest: &str) -> Result<String, AllocError> {
    let mut words = rest.split(' ');
    let page = number(words.next().unwrap_or(""));
    let mut runs = Vec::new(alloc);
    while let Some(size) = words.next() {
        let count = words.next().unwrap_or("");
        runs.push(Run {
            size: number(size),
            count: number(count),
        })?;
    }
    take_image(alloc, pages, page, &runs)
}

// Takes an image in, where it has runs that an image may have, and there is room for them at the page.
fn take_image(
    alloc: Global,
    pages: &mut Pages,
    page: u32,
    runs: &[Run],
) -> Result<String, AllocError> {
    if !are_runs(runs) {
        return String::from_str(alloc, "no runs");
    }
    let Some(need) = pages_for(runs) else {
        return String::from_str(alloc, "no room");
    };
    match pages.fit(need, page) {
        Ok(fitting) if fitting == page => {
            pages.take_image(page, runs)?;
            String::from_str(alloc, "ok")
        }
        _ => String::from_str(alloc, "no room"),
    }
}

// The entries of a list, from its first one on.
fn list(alloc: Global, pages: &Pages, i: u32) -> Result<String, AllocError> {
    if i >= CACHED {
        return String::from_str(alloc, "no list");
    }
    let found = entries(alloc, pages, i)?;
    entries_text(alloc, &found)
}

fn entries_text(alloc: Global, entries: &[PageEntry]) -> Result<String, AllocError> {
    if entries.is_empty() {
        return String::from_str(alloc, "none");
    }
    let mut text = String::new(alloc);
    add_entries(&mut text, entries)?;
    Ok(text)
}

fn add_entries(text: &mut String, entries: &[PageEntry]) -> Result<(), AllocError> {
    let mut between = "";
    for entry in entries {
        write!(
            text,
            "{between}{}:{}:{}",
            entry.page, entry.size, entry.free
        )?;
        between = " ";
    }
    Ok(())
}

fn cached(alloc: Global, pages: &Pages) -> Result<String, AllocError> {
    let count = cached_pages(alloc, pages)?.len();
    format!(in alloc; "{count}")
}

fn random(alloc: Global, rest: &str) -> Result<String, AllocError> {
    let (seed, steps) = rest.split_once(' ').unwrap_or(("", ""));
    match random_calls(alloc, number(seed) as u64, number(steps))? {
        None => String::from_str(alloc, "same"),
        Some(step) => format!(in alloc; "step {step}"),
    }
}
