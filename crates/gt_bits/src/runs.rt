//! Runs: numbers one after another, all of the set.

ghost use Rattle.std.specs.Prelude.{◌^◌, ◌<◌, ◌≤◌};
ghost use Rattle.gt_bits.specs.Sets.{IsLowestRun, IsLongestRun};
ghost use Rattle.gt_bits.specs.Runs.{IsNextRun, IsRunStart, IsStartIn};

use crate::places::{first_ones, last_clear_bit};
use crate::sets::{next_below, next_gap};

/// The numbers from `start` up to `stop`, without `stop`.
#[derive(Clone, Copy)]
struct Run {
    start: u32,
    stop: u32,
}

/// The first of `n` numbers, one after another, that are all in the set and below `end`: the lowest such, or `None`
/// where there are none. It looks at each word at most once.
pub fn first_run(words: &[u64], n: u32, end: u32) -> Option<u32>
    requires { 1 ≤ n }
    ensures { IsLowestRun words.now n end result }
{
    let mut at = 0u64;
    let mut first = 0u64;
    'words: for word in words {
        if at >= end as u64 {
            return None;
        }
        if let Some(start) = start_in(*word, at, first, n) {
            return if start + n as u64 <= end as u64 {
                Some(start as u32)
            } else {
                None
            };
        }
        first = run_start(*word, at, first);
        at += 64;
    }
    None
}

/// The first of `n` numbers, one after another, that are all in the set, the first not below `first` and the last in a
/// word: the lowest such, or `None` where there are none. The word begins with the number `at`, and the numbers from
/// `first` up to it are in the set.
fn start_in(word: u64, at: u64, first: u64, n: u32) -> Option<u64>
    requires some { 1 ≤ n }
    requires reached { first ≤ at }
    requires fits { at < 2 ^ 32 }
    ensures { IsStartIn word at first n result }
{
    let low = word.trailing_ones();
    if at + low as u64 - first >= n as u64 {
        return Some(first);
    }
    match first_ones(word, n) {
        None => None,
        Some(bit) => Some(at + bit as u64),
    }
}

/// The first number of the run that reaches the end of a word, or the number after the word where none does. The word
/// begins with the number `at`, and the run that reaches it with `first`.
fn run_start(word: u64, at: u64, first: u64) -> u64
    requires reached { first ≤ at }
    requires fits { at < 2 ^ 32 }
    ensures { IsRunStart word at first result }
{
    match last_clear_bit(word) {
        None => first,
        Some(bit) => at + bit as u64 + 1,
    }
}

/// How many numbers the longest run of the set below `end` has: 0 where the set has no number there. It looks at a
/// word once, and once more for each beginning and each end of a run in it.
pub fn longest_run(words: &[u64], end: u32) -> u32
    ensures { IsLongestRun words.now end result }
{
    let mut longest = 0;
    let mut from = 0;
    'runs: loop {
        match next_run(words, from, end) {
            None => return longest,
            Some(run) => {
                longest = longest.max(run.stop - run.start);
                from = run.stop;
            }
        }
    }
}

/// The first run of the set that does not begin below `from`, cut at `end`, or `None` where there is none below `end`.
fn next_run(words: &[u64], from: u32, end: u32) -> Option<Run>
    ensures { IsNextRun words.now from end result }
{
    let start = next_below(words, from, end)?;
    match next_gap(words, start, end) {
        None => Some(Run { start, stop: end }),
        Some(stop) => Some(Run { start, stop }),
    }
}
