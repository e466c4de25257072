//! One set: its members, put in, taken out, sought and counted.

ghost use Rattle.std.specs.Prelude.{◌≡◌, ◌≢◌, ℕ, ◌*◌, ◌<◌, true, false, not, length};
ghost use Rattle.gt_bits.specs.Sets.{has, members, Fits, IsNext, IsNextGap};
ghost use Rattle.gt_bits.specs.Runs.{IsNextBelow};

use crate::places::{bit_of, next_bit, next_clear_bit, word_of};

/// Whether a number is in the set. No number after the last word is.
pub fn has(words: &[u64], i: u32) -> bool
    ensures { result ≡ has words.now i }
{
    match words.get(word_of(i)) {
        Some(word) => (*word >> bit_of(i)) & 1 == 1,
        None => false,
    }
}

/// Puts a number into the set, where it may be already.
pub fn insert(words: &mut [u64], i: u32)
    requires { i < 64 * length words.old }
    ensures len { length words.new ≡ length words.old }
    ensures held { has words.new i ≡ true }
    ensures others { (j : ℕ) → j ≢ i → has words.new j ≡ has words.old j }
{
    words[word_of(i)] |= 1 << bit_of(i);
}

/// Puts a number into the set, and says whether it was not there before.
#[inline(always)]
pub fn insert_new(words: &mut [u64], i: u32) -> bool
    requires { i < 64 * length words.old }
    ensures fresh { result ≡ not (has words.old i) }
    ensures len { length words.new ≡ length words.old }
    ensures held { has words.new i ≡ true }
    ensures others { (j : ℕ) → j ≢ i → has words.new j ≡ has words.old j }
    ensures unchanged { result ≡ false → words.new ≡ words.old }
{
    let place = word_of(i);
    let bit = bit_of(i);
    if (words[place] >> bit) & 1 == 1 {
        return false;
    }
    words[place] |= 1 << bit;
    true
}

/// Takes a number out of the set, in which it need not be.
pub fn remove(words: &mut [u64], i: u32)
    requires { i < 64 * length words.old }
    ensures len { length words.new ≡ length words.old }
    ensures gone { has words.new i ≡ false }
    ensures others { (j : ℕ) → j ≢ i → has words.new j ≡ has words.old j }
{
    words[word_of(i)] &= !(1 << bit_of(i));
}

/// Empties the set.
pub fn clear(words: &mut [u64])
    ensures len { length words.new ≡ length words.old }
    ensures gone { (i : ℕ) → has words.new i ≡ false }
{
    words.fill(0);
}

/// The least number of the set that is not below `from`, or `None` where there is none. It looks at each word at
/// most once.
pub fn next(words: &[u64], from: u32) -> Option<u32>
    requires { Fits words.now }
    ensures { IsNext words.now from result }
{
    next_below(words, from, 64 * words.len() as u32)
}

/// The least number of the set that is not below `from` and is below `end`, or `None` where there is none. It looks
/// at each word at most once.
pub(crate) fn next_below(words: &[u64], from: u32, end: u32) -> Option<u32>
    ensures { IsNextBelow words.now from end result }
{
    let mut at = from;
    'words: while at < end && word_of(at) < words.len() {
        let bit = bit_of(at);
        if let Some(found) = next_bit(words[word_of(at)], bit) {
            let number = at - bit + found;
            return if number < end { Some(number) } else { None };
        }
        // Where the next word begins at 2 ^ 32, `end` is not above what this leaves.
        at = (at - bit).saturating_add(64);
    }
    None
}

/// The least number that is not below `from`, is below `end` and is not in the set, or `None` where there is none.
/// A number after the last word is in no set. It looks at each word at most once.
pub fn next_gap(words: &[u64], from: u32, end: u32) -> Option<u32>
    ensures { IsNextGap words.now from end result }
{
    let mut at = from;
    'words: while at < end {
        if word_of(at) >= words.len() {
            return Some(at);
        }
        let bit = bit_of(at);
        if let Some(found) = next_clear_bit(words[word_of(at)], bit) {
            let gap = at - bit + found;
            return if gap < end { Some(gap) } else { None };
        }
        // As in `next_below`.
        at = (at - bit).saturating_add(64);
    }
    None
}

/// How many numbers are in the set.
pub fn count(words: &[u64]) -> u32
    requires { Fits words.now }
    ensures { result ≡ length (members words.now) }
{
    let mut total = 0;
    'words: for word in words {
        total += word.count_ones();
    }
    total
}
