//! Where the bit of a number stands, and the searches within one word.

ghost use Rattle.std.specs.Prelude.{◌≡◌, ℕ, ◌/◌, ◌%◌, ◌<◌, ◌≤◌};
ghost use Rattle.gt_bits.specs.Places.{AreStarts, IsFirstOnes, IsLastClearBit, IsNextBit, IsNextClearBit};

/// The word that has the bit of a number.
pub(crate) fn word_of(i: u32) -> usize
    ensures { result ≡ i / 64 }
{
    (i / 64) as usize
}

/// The place of the bit of a number in its word.
pub(crate) fn bit_of(i: u32) -> u32
    ensures value { result ≡ i % 64 }
    ensures bound { result < 64 }
{
    i % 64
}

/// The lowest bit of a word that is set and not below `from`, or `None` where none is.
pub(crate) fn next_bit(word: u64, from: u32) -> Option<u32>
    requires { from < 64 }
    ensures { IsNextBit word from result }
{
    let rest = word >> from;
    if rest == 0 {
        return None;
    }
    Some(from + rest.trailing_zeros())
}

/// The lowest bit of a word that is not set and not below `from`, or `None` where none is.
pub(crate) fn next_clear_bit(word: u64, from: u32) -> Option<u32>
    requires { from < 64 }
    ensures { IsNextClearBit word from result }
{
    next_bit(!word, from)
}

/// The highest bit of a word that is not set, or `None` where all are.
pub(crate) fn last_clear_bit(word: u64) -> Option<u32>
    ensures { IsLastClearBit word result }
{
    let clear = !word;
    if clear == 0 {
        return None;
    }
    Some(63 - clear.leading_zeros())
}

/// The lowest bit of a word from which on `n` bits are set, or `None` where there is none.
pub(crate) fn first_ones(word: u64, n: u32) -> Option<u32>
    requires { 1 ≤ n }
    ensures { IsFirstOnes word n result }
{
    if n > 64 {
        return None;
    }
    next_bit(starts_of(word, n), 0)
}

/// The bits of a word from which on `n` bits are set, in at most six steps.
fn starts_of(word: u64, n: u32) -> u64
    requires some { 1 ≤ n }
    requires few { n ≤ 64 }
    ensures { AreStarts word n result }
{
    let mut starts = word;
    let mut len = 1;
    'steps: while len < n {
        let more = len.min(n - len);
        starts &= starts >> more;
        len += more;
    }
    starts
}
