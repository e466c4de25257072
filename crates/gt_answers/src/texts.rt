// The text of a line's answer.
ghost use Rattle.std.specs.Prelude.{◌≡◌, ◌++◌, ◌∷◌, [], IfOk, OnOk};
ghost use Rattle.std.specs.String.{string_bytes};
ghost use Rattle.gt_digits.specs.Digits.{decimal};
ghost use Rattle.gt_show.specs.Shown.{number_text};
ghost use Rattle.gt_next.specs.Texts.{answer_text as answer_text_of, end_of as end_of_answer, text_of};
ghost use Rattle.gt_next.specs.declared.answer.Answer.TheVariants as Answer;
ghost use Rattle.gt_next.specs.declared.answer.Why.TheVariants as Why;

use gt_digits::{push_decimal, push_hexadecimal};
use gt_next::{Answer, Why};
use gt_script::Line;
use gt_types::{Bytes, Copied};
use std::alloc::{AllocError, Global};

/// The text of a line's answer, in which each line ends with a newline. Where the line is quiet, there is no text but of a refusal.
pub fn text(alloc: Global, line: &Line, answer: &Answer) -> Result<Bytes, AllocError>
    ensures text { IfOk result (λ bytes. bytes ≡ text_of line.now answer.now) }
{
    if line.quiet && !answer.is_refusal() {
        return Ok(Bytes::new(alloc));
    }
    let mut text = answer_text(alloc, answer)?;
    text.append(end_of(answer))?;
    Ok(text)
}

// What ends an answer: a newline, but where its lines have theirs.
fn end_of(answer: &Answer) -> &'static [u8]
    ensures { result.now ≡ end_of_answer answer.now }
{
    match answer {
        Answer::Tables(_) => b"",
        Answer::Done | Answer::Made { .. } | Answer::Number(_) => b"\n",
        Answer::Null | Answer::Ref { .. } | Answer::Shown(_) => b"\n",
        Answer::Skipped | Answer::Collected { .. } | Answer::Heap(_) => b"\n",
        Answer::Stats { .. } | Answer::Refused(_) => b"\n",
    }
}

// The text of an answer, without its end.
fn answer_text(alloc: Global, answer: &Answer) -> Result<Bytes, AllocError>
    ensures { IfOk result (λ bytes. bytes ≡ answer_text_of answer.now) }
{
    match answer {
        Answer::Done => Bytes::of(alloc, b"ok"),
        Answer::Made { addr, size } => made_text(alloc, *addr, *size),
        Answer::Number(n) => number_text(alloc, *n),
        Answer::Null => Bytes::of(alloc, b"null"),
        Answer::Ref { addr } => ref_text(alloc, *addr),
        Answer::Shown(text) => text.copy(alloc),
        Answer::Skipped => Bytes::of(alloc, b"skipped"),
        Answer::Collected {
            kept,
            freed,
            dropped,
        } => collected_text(alloc, *kept, *freed, *dropped),
        Answer::Heap(text) => text.copy(alloc),
        Answer::Tables(text) => text.copy(alloc),
        Answer::Stats {
            allocated,
            last,
            threshold,
            image,
            rounds,
        } => stats_text(alloc, *allocated, *last, *threshold, *image, *rounds),
        Answer::Refused(why) => refused_text(alloc, *why),
    }
}

// A whole number in decimal.
fn decimal_text(alloc: Global, n: i128) -> Result<String, AllocError>
    ensures { IfOk result (λ text. string_bytes text ≡ number_text n) }
{
    format!(in alloc; "{n}")
}

// The line of a number.
fn number_text(alloc: Global, n: i128) -> Result<Bytes, AllocError>
    ensures { IfOk result (λ bytes. bytes ≡ number_text n) }
{
    let digits = decimal_text(alloc, n)?;
    Bytes::of(alloc, digits.as_bytes())
}

// The line of a block that was made.
fn made_text(alloc: Global, addr: u64, size: u32) -> Result<Bytes, AllocError>
    ensures { IfOk result (λ bytes. bytes ≡ answer_text_of (Answer.Made addr size)) }
{
    let mut text = Bytes::of(alloc, b"made 0x")?;
    push_hexadecimal(alloc, &mut text, addr)?;
    text.append(b" ")?;
    push_decimal(alloc, &mut text, size as u64)?;
    Ok(text)
}

// The line of an object.
fn ref_text(alloc: Global, addr: u64) -> Result<Bytes, AllocError>
    ensures { IfOk result (λ bytes. bytes ≡ answer_text_of (Answer.Ref addr)) }
{
    let mut text = Bytes::of(alloc, b"ref 0x")?;
    push_hexadecimal(alloc, &mut text, addr)?;
    Ok(text)
}

// The line of a collection: how many objects it kept and freed, and how many pairs of caches it dropped.
fn collected_text(alloc: Global, kept: u32, freed: u32, dropped: u32) -> Result<Bytes, AllocError>
    ensures { IfOk result (λ bytes. bytes ≡ answer_text_of (Answer.Collected kept freed dropped)) }
{
    let mut text = Bytes::of(alloc, b"collected kept ")?;
    push_decimal(alloc, &mut text, kept as u64)?;
    text.append(b" freed ")?;
    push_decimal(alloc, &mut text, freed as u64)?;
    text.append(b" dropped ")?;
    push_decimal(alloc, &mut text, dropped as u64)?;
    Ok(text)
}

// Adds a newline, a word and a number.
fn push_entry(alloc: Global, text: &mut Bytes, word: &[u8], n: u64) -> Result<(), AllocError>
    ensures { OnOk result (text.new ≡ text.old ++ 10 ∷ [] ++ word.now ++ decimal n) }
{
    text.push(b'\n')?;
    text.append(word)?;
    push_decimal(alloc, text, n)
}

// The lines of the numbers of the collector.
fn stats_text(
    alloc: Global,
    allocated: u64,
    last: u64,
    threshold: u64,
    image: u32,
    rounds: u32,
) -> Result<Bytes, AllocError>
    ensures { IfOk result (λ bytes. bytes ≡ answer_text_of (Answer.Stats allocated last threshold image rounds)) }
{
    let mut text = Bytes::of(alloc, b"allocated ")?;
    push_decimal(alloc, &mut text, allocated)?;
    push_entry(alloc, &mut text, b"last ", last)?;
    push_entry(alloc, &mut text, b"threshold ", threshold)?;
    push_entry(alloc, &mut text, b"image ", image as u64)?;
    push_entry(alloc, &mut text, b"rounds ", rounds as u64)?;
    Ok(text)
}

// The line of a refusal: its number and name, and its numbers.
fn refused_text(alloc: Global, why: Why) -> Result<Bytes, AllocError>
    ensures { IfOk result (λ bytes. bytes ≡ answer_text_of (Answer.Refused why)) }
{
    match why {
        Why::Unbound => Bytes::of(alloc, b"error F1 Unbound"),
        Why::NoType => Bytes::of(alloc, b"error F2 NoType"),
        Why::NoField => Bytes::of(alloc, b"error F3 NoField"),
        Why::WrongType => Bytes::of(alloc, b"error F4 WrongType"),
        Why::OutOfRange => Bytes::of(alloc, b"error F5 OutOfRange"),
        Why::BadIndex => Bytes::of(alloc, b"error F6 BadIndex"),
        Why::Inactive => Bytes::of(alloc, b"error F7 Inactive"),
        Why::Shape => Bytes::of(alloc, b"error F8 Shape"),
        Why::TooLarge => Bytes::of(alloc, b"error F9 TooLarge"),
        Why::Full { need } => full_text(alloc, need),
        Why::NullStep => Bytes::of(alloc, b"error F11 NullStep"),
        Why::NoCache => Bytes::of(alloc, b"error F12 NoCache"),
        Why::TooManyVars => Bytes::of(alloc, b"error F17 TooManyVars"),
    }
}

// The line of a refusal where so many bytes found no room.
fn full_text(alloc: Global, need: u32) -> Result<Bytes, AllocError>
    ensures { IfOk result (λ bytes. bytes ≡ answer_text_of (Answer.Refused (Why.Full need))) }
{
    let mut text = Bytes::of(alloc, b"error F10 Full ")?;
    push_decimal(alloc, &mut text, need as u64)?;
    Ok(text)
}
