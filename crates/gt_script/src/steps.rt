// The steps of a path, as the script writes them.
ghost use Rattle.std.specs.Prelude.{◌≡◌, ◌≤◌, ◌<◌, [], ◌∷◌, not, codes, length, Some, None, IsTrue, IfOk, IfErr, MatchOption, is_some};
ghost use Rattle.std.specs.List.{prefix_len};
ghost use Rattle.std.specs.Cmp.{partial_equiv_from_equiv};
ghost use Rattle.std.specs.Cmp.Lexicographic.{pointwise, lists_equiv, lists_per};
ghost use Rattle.std.specs.Option.{option_map};
ghost use Rattle.std.specs.Str.{IsUtf8};
ghost use Rattle.gt_script.specs.declared.command.Hop.{Hop};
ghost use Rattle.gt_script.specs.declared.command.Hop.TheVariants.{Name, Index};
ghost use Rattle.gt_split.specs.Texts.{following};
ghost use Rattle.gt_script.specs.Values.{name_at};
ghost use Rattle.gt_script.specs.Steps.{begins_step, cut_steps, index_at, hop_at, hops_at, steps_at, AreStepsIn, steps_in};
ghost use Rattle.gt_script.specs.SameSteps.{same_step, same_step_equiv};

use crate::Hop;
use crate::source::{Source, name_in};
use gt_split::{Slice, after_byte, decimal, front};
use gt_types::{Copied, Word};
use std::alloc::{AllocError, Global};
use std::marker::Model;

/// The steps of a path, which contracts see as their list. They are a part of the script, and `hops` reads them one by one.
#[derive(Debug, Drop)]
pub struct Steps {
    text: Word,
}

impl Model for Steps {
    ghost use Rattle.std.specs.Prelude.{List, encode_utf8_all};
    ghost use Rattle.gt_script.specs.declared.command.Hop.{Hop};
    ghost use Rattle.gt_script.specs.Steps.{AreStepsIn, steps_in};

    ghost Value = { List Hop };

    ghost view = { λ s. steps_in (encode_utf8_all s.text) };

    ghost invariant = { λ s. AreStepsIn (encode_utf8_all s.text) };
}

impl Steps {
    /// The steps that a text is, written as in a script: `.name` leads to a field and `[n]` to an element; None where it is no steps
    /// ([`steps_as_spelled`](crate::steps_as_spelled)). It has a copy of the text. Its only error is out of memory.
    pub fn parse(alloc: Global, text: &str) -> Result<Option<Steps>, AllocError>
        ensures steps { IfOk result (λ found. found ≡ steps_at text.now) }
    {
        if step_place(text.as_bytes()) != 0 {
            return Ok(None);
        }
        if !are_steps(text) {
            return Ok(None);
        }
        Ok(Some(Steps {
            text: Word::of(alloc, text)?,
        }))
    }

    // The steps that a slice is, which begins with one where it has a byte.
    pub fn of(source: &Source, slice: &Slice<'_>) -> Result<Option<Steps>, AllocError>
        requires begins { (cut_steps slice.now).0 ≡ [] }
        ensures steps { IfOk result (λ found. found ≡ hops_at (cut_steps slice.now).1) }
    {
        let text = slice.text();
        if !are_steps(text) {
            return Ok(None);
        }
        Ok(Some(Steps {
            text: source.word(slice.place(), text)?,
        }))
    }

    /// The steps, one by one from the first.
    pub fn hops(&self) -> Hops<'_>
        ensures steps { result ≡ self.now }
    {
        Hops {
            text: &self.text,
            rest: self.text.as_str(),
        }
    }
}

impl Copied for Steps {
    fn copy(&self, alloc: Global) -> Result<Steps, AllocError> {
        Ok(Steps {
            text: self.text.copy(alloc)?,
        })
    }
}

impl PartialEq for Steps {
    ghost eq = { pointwise same_step };

    ghost laws = { lists_per (partial_equiv_from_equiv same_step_equiv) };

    fn eq(&self, other: &Steps) -> bool {
        are_same(self.text.as_str(), other.text.as_str())
    }
}

impl Eq for Steps {
    ghost laws = { lists_equiv same_step_equiv };
}

/// Steps that are read one by one; contracts see those that are left.
#[derive(Drop)]
pub struct Hops<'a> {
    text: &'a Word,
    rest: &'a str,
}

impl<'a> Model for Hops<'a> {
    ghost use Rattle.std.specs.Prelude.{List};
    ghost use Rattle.gt_script.specs.declared.command.Hop.{Hop};
    ghost use Rattle.gt_script.specs.Steps.{AreStepsIn, steps_in};

    ghost Value = { List Hop };

    ghost view = { λ h. steps_in h.rest.now };

    ghost invariant = { λ h. AreStepsIn h.rest.now };
}

impl<'a> Hops<'a> {
    /// The first step that is left, which is taken; None where none is left. Its only error is out of memory, after which nothing was
    /// taken.
    pub fn take_first(&mut self, alloc: Global) -> Result<Option<Hop>, AllocError>
        ensures taken { IfOk result (λ found. MatchOption found ((self.old ≡ []) × (self.new ≡ [])) (λ hop. self.old ≡ hop ∷ self.new)) }
        ensures kept { IfErr result (λ e. self.new ≡ self.old) }
    {
        let Some((step, after)) = first_step(self.rest) else {
            return Ok(None);
        };
        let place = self.text.as_str().len().saturating_sub(self.rest.len());
        let Some(hop) = hop_of(alloc, self.text, place, step)? else {
            unreachable!()
        };
        self.rest = after;
        Ok(Some(hop))
    }
}

#[tactic(auto, unfolding(crate::specs::Steps::begins_step))]
#[inline(always)]
fn begins_step(byte: u8) -> bool
    ensures { result ≡ begins_step byte }
{
    byte == b'.' || byte == b'['
}

// How many bytes stand before the first step.
#[inline(always)]
pub fn step_place(text: &[u8]) -> usize
    ensures place { result ≡ prefix_len (λ c. not (begins_step c)) text.now }
    ensures within { result ≤ length text.now }
{
    text.iter().take_while(|byte| !begins_step(**byte)).count()
}

// The text of the first step of a text that begins with one, and what stands after it.
#[inline(always)]
fn first_step(text: &str) -> Option<(&str, &str)>
    requires begins { (cut_steps text.now).0 ≡ [] }
    ensures first { MatchOption result (text.now ≡ []) (λ r. cut_steps text.now ≡ ([], r.0.now ∷ (cut_steps r.1.now).1)) }
    ensures after { MatchOption result (text.now ≡ []) (λ r. (cut_steps r.1.now).0 ≡ []) }
    ensures shorter { MatchOption result (text.now ≡ []) (λ r. length r.1.now < length text.now) }
    ensures utf8 { MatchOption result (text.now ≡ []) (λ r. IsUtf8 r.1.now) }
{
    let Some((_, others)) = front(text.as_bytes()) else {
        return None;
    };
    Some(text.split_at(1 + step_place(others)))
}

// The step that a text is. Its name is expected to stand in a word, one byte after a place.
#[tactic(auto, unfolding(crate::specs::Steps::hop_at))]
#[inline(always)]
fn hop_of(alloc: Global, word: &Word, place: usize, step: &str) -> Result<Option<Hop>, AllocError>
    ensures { IfOk result (λ found. found ≡ hop_at step.now) }
{
    match after_byte(step, b'.') {
        Some(name) => field_of(alloc, word, place.saturating_add(1), name),
        None => Ok(index(step.as_bytes())),
    }
}

// The step to the field of this name.
fn field_of(alloc: Global, word: &Word, place: usize, name: &str) -> Result<Option<Hop>, AllocError>
    ensures { IfOk result (λ found. found ≡ option_map Name (name_at name.now)) }
{
    let Some(name) = name_in(name) else {
        return Ok(None);
    };
    Ok(Some(Hop::Name(word.near(alloc, place, name)?)))
}

fn index(text: &[u8]) -> Option<Hop>
    ensures { result ≡ index_at text.now }
{
    match place_in(text) {
        Some(place) => Some(Hop::Index(place)),
        None => None,
    }
}

// The place of the element to which a step leads.
#[tactic(auto, unfolding(crate::specs::Steps::index_at, gt_split::specs::Texts::following, gt_split::specs::Texts::before))]
fn place_in(text: &[u8]) -> Option<u64>
    ensures { option_map Index result ≡ index_at text.now }
{
    let inner = text.strip_prefix(b"[")?;
    let digits = inner.strip_suffix(b"]")?;
    decimal(digits)
}

// Whether a text is a step.
#[tactic(auto, unfolding(crate::specs::Steps::hop_at))]
#[inline(always)]
fn is_step(text: &str) -> bool
    ensures { result ≡ is_some (hop_at text.now) }
{
    match after_byte(text, b'.') {
        Some(name) => name_in(name).is_some(),
        None => place_in(text.as_bytes()).is_some(),
    }
}

// Whether a text that begins with a step is steps.
#[inline(always)]
fn are_steps(text: &str) -> bool
    requires { (cut_steps text.now).0 ≡ [] }
    ensures { result ≡ is_some (hops_at (cut_steps text.now).1) }
{
    let mut rest = text;
    while let Some((step, after)) = first_step(rest) {
        if !is_step(step) {
            return false;
        }
        rest = after;
    }
    true
}

// Whether two steps are the same: names have the same bytes, and elements the same place.
fn is_same_step(step: &str, other: &str) -> bool
    ensures { (hop another : Hop) → hop_at step.now ≡ Some hop → hop_at other.now ≡ Some another → result ≡ same_step hop another }
{
    match (after_byte(step, b'.'), after_byte(other, b'.')) {
        (Some(name), Some(other)) => name == other,
        (None, None) => is_same_element(step, other),
        _ => false,
    }
}

// The same of steps to elements.
fn is_same_element(step: &str, other: &str) -> bool
    ensures { (hop another : Hop) → index_at step.now ≡ Some hop → index_at other.now ≡ Some another → result ≡ same_step hop another }
{
    match (place_in(step.as_bytes()), place_in(other.as_bytes())) {
        (Some(place), Some(other)) => place == other,
        _ => false,
    }
}

// Whether two texts are the same steps.
fn are_same(text: &str, other: &str) -> bool
    requires steps { AreStepsIn text.now }
    requires others { AreStepsIn other.now }
    ensures { result ≡ pointwise same_step (steps_in text.now) (steps_in other.now) }
{
    let (mut rest, mut others) = (text, other);
    loop {
        match (first_step(rest), first_step(others)) {
            (None, None) => return true,
            (Some((step, after)), Some((another, others_after))) => {
                if !is_same_step(step, another) {
                    return false;
                }
                rest = after;
                others = others_after;
            }
            _ => return false,
        }
    }
}
