// A text: a name of a header or a script, a word of the command line, a file's name.
ghost use Rattle.std.specs.Prelude.{◌≡◌, ◌==◌, ◌≤◌, true, IsTrue, ℕ, List, length, IfOk, Some, MatchOption, encode_utf8_all, slice_range, refl};
ghost use Rattle.std.specs.Str.{chars, bytes_eq, IsCharBoundary};
ghost use Rattle.std.specs.List.{list_all};
ghost use Rattle.std.specs.Char.{is_ascii};
ghost use Rattle.std.specs.Rc.{rc_str_bytes};
ghost use Rattle.std.specs.Ordering.{nat_cmp};
ghost use Rattle.std.specs.Cmp.Lexicographic.{slice_cmp, nat_list_cmp_total, nat_list_eq_equiv, texts_ties, texts_po};
ghost use Rattle.std.specs.Cmp.{partial_equiv_from_equiv};

use crate::Copied;
use std::alloc::{AllocError, Global};
use std::cmp::Ordering;
use std::fmt;
use std::marker::Model;
use std::rc::RcStr;

/// A text that contracts see as the list of its characters. It is a part of a text that is shared, with its copies and with other
/// words, so a copy takes no memory.
#[derive(Drop)]
pub struct Word {
    text: RcStr,
    start: u32,
    end: u32,
}

impl Model for Word {
    ghost use Rattle.std.specs.Prelude.{ℕ, ◌≤◌, List, slice_range};
    ghost use Rattle.std.specs.Str.{chars, IsCharBoundary};
    ghost use Rattle.std.specs.Rc.{rc_str_bytes};

    ghost Value = { List ℕ };

    ghost view = { λ w. chars (slice_range (rc_str_bytes w.text) w.start w.end) };

    ghost invariant = { λ w. (w.start ≤ w.end) × IsCharBoundary (rc_str_bytes w.text) w.start × IsCharBoundary (rc_str_bytes w.text) w.end };
}

impl Word {
    /// The word of a text, which is copied. Its only error is out of memory, also for 2^32 bytes and more.
    pub fn of(alloc: Global, text: &str) -> Result<Word, AllocError>
        ensures text { IfOk result (λ w. w ≡ chars text.now) }
    {
        let end = text.len();
        if end > u32::MAX as usize {
            return Err(AllocError);
        }
        Ok(Word {
            text: RcStr::from_str(alloc, text)?,
            start: 0,
            end: end as u32,
        })
    }

    /// The word that stands in a shared text from one byte up to another; None where these are not places between its characters,
    /// in this order. It takes no memory.
    pub fn part(text: RcStr, start: u32, end: u32) -> Option<Word>
        ensures part { MatchOption result (¬ ((start ≤ end) × IsCharBoundary (rc_str_bytes text) start × IsCharBoundary (rc_str_bytes text) end)) (λ w. w ≡ chars (slice_range (rc_str_bytes text) start end)) }
    {
        let shared = text.as_str();
        if start <= end
            && shared.is_char_boundary(start as usize)
            && shared.is_char_boundary(end as usize)
        {
            Some(Word { text, start, end })
        } else {
            None
        }
    }

    /// The shared text in which the word stands, and the bytes of it from which and up to which it does. It takes no memory.
    pub fn into_part(self) -> (RcStr, u32, u32)
        ensures part { chars (slice_range (rc_str_bytes result.0) result.1 result.2) ≡ self }
        ensures order { result.1 ≤ result.2 }
        ensures start { IsCharBoundary (rc_str_bytes result.0) result.1 }
        ensures end { IsCharBoundary (rc_str_bytes result.0) result.2 }
    {
        (self.text, self.start, self.end)
    }

    /// The word of a text that is expected to stand in a shared one from a byte on. Where it does, the word shares it, and takes no
    /// memory; else it is copied. Its only error is out of memory.
    #[inline(always)]
    pub fn at(alloc: Global, shared: &RcStr, start: usize, text: &str) -> Result<Word, AllocError>
        ensures text { IfOk result (λ w. w ≡ chars text.now) }
    {
        let end = start.saturating_add(text.len());
        if end > u32::MAX as usize || !stands_at(shared.as_str(), start, end, text) {
            return Word::of(alloc, text);
        }
        Ok(Word {
            text: shared.clone()?,
            start: start as u32,
            end: end as u32,
        })
    }

    /// The same, where the text is expected to stand in this word from a byte of it on.
    #[inline(always)]
    pub fn near(&self, alloc: Global, place: usize, text: &str) -> Result<Word, AllocError>
        ensures text { IfOk result (λ w. w ≡ chars text.now) }
    {
        let start = (self.start as usize).saturating_add(place);
        Word::at(alloc, &self.text, start, text)
    }

    /// The word as a text.
    #[inline(always)]
    pub fn as_str(&self) -> &str
        ensures text { result.now ≡ encode_utf8_all self.now }
        ensures characters { chars result.now ≡ self.now }
    {
        &self.text.as_str()[self.start as usize..self.end as usize]
    }

    /// Whether the word is this one of ASCII characters.
    #[inline(always)]
    pub fn is(&self, ascii: &str) -> bool
        requires { IsTrue (list_all is_ascii ascii.now) }
        ensures { result ≡ bytes_eq self.now ascii.now }
    {
        self.as_str() == ascii
    }

    /// Whether the word has no character.
    pub fn is_empty(&self) -> bool
        ensures empty { result ≡ (length self.now == 0) }
    {
        self.as_str().is_empty()
    }

    /// How many characters the word has.
    pub fn len(&self) -> usize
        ensures characters { result ≡ length self.now }
    {
        self.as_str().chars().count()
    }
}

// Whether a text stands in another one from one byte up to another.
#[inline(always)]
fn stands_at(whole: &str, start: usize, end: usize, text: &str) -> bool
    ensures { result ≡ true → (start ≤ end) × IsCharBoundary whole.now start × IsCharBoundary whole.now end × (slice_range whole.now start end ≡ text.now) }
{
    start <= end
        && whole.is_char_boundary(start)
        && whole.is_char_boundary(end)
        && &whole[start..end] == text
}

impl Copied for Word {
    fn copy(&self, _alloc: Global) -> Result<Word, AllocError> {
        Ok(Word {
            text: self.text.clone()?,
            start: self.start,
            end: self.end,
        })
    }
}

impl fmt::Debug for Word {
    fn fmt<W: fmt::Write>(&self, f: &mut fmt::Formatter<W>) -> fmt::Result {
        fmt::Debug::fmt(self.as_str(), f)
    }
}

impl PartialEq for Word {
    ghost eq = { bytes_eq };

    ghost laws = { partial_equiv_from_equiv nat_list_eq_equiv };

    fn eq(&self, other: &Word) -> bool {
        self.as_str() == other.as_str()
    }
}

impl Eq for Word {
    ghost laws = { nat_list_eq_equiv };
}

impl PartialOrd for Word {
    ghost partial_cmp = { λ x y. Some (slice_cmp nat_cmp x y) };

    ghost laws = { texts_po };

    fn partial_cmp(&self, other: &Word) -> Option<Ordering> {
        Some(self.cmp(other))
    }
}

impl Ord for Word {
    ghost cmp = { slice_cmp nat_cmp };

    ghost total = { nat_list_cmp_total };

    ghost matches_partial_cmp = { λ x y. refl };

    ghost matches_eq = { texts_ties };

    fn cmp(&self, other: &Word) -> Ordering {
        self.as_str().cmp(other.as_str())
    }
}
