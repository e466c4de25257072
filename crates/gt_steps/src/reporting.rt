// The commands `heap`, `stats` and `tables`.
ghost use Rattle.std.specs.Prelude.{◌≡◌, ◌++◌, IfOk, OnOk, Option, Contains, All};
ghost use Rattle.gt_io.specs.Held.{Held};
ghost use Rattle.gt_graph.specs.Places.{ledger_of};
ghost use Rattle.gt_pages.specs.Ledger.{sizes};
ghost use Rattle.gt_next.specs.States.{State};
ghost use Rattle.gt_next.specs.Next.{NextHeap, NextTables};
ghost use Rattle.gt_next.specs.Collecting.{NextStats};
ghost use Rattle.gt_next.specs.Texts.{heap_text, size_line, size_lines};
ghost use Rattle.gt_session.specs.Sessions.{IsSession, StandsFor};

use crate::collecting::heuristic;
use gt_digits::push_decimal;
use gt_listing::list_program;
use gt_next::Answer;
use gt_pages::all_sizes;
use gt_session::Session;
use gt_types::Bytes;
use std::alloc::{AllocError, Global};

/// How many objects there are of each size; then how many there are, and the bytes of their blocks.
pub fn heap(alloc: Global, s: &Session) -> Result<Answer, AllocError>
    requires session { IsSession s.now }
    ensures next { IfOk result (λ answer. (told : Option Held) (state : State) → StandsFor s.now told state → NextHeap state answer state) }
{
    Ok(Answer::Heap(report(alloc, s)?))
}

// The text of `heap`.
fn report(alloc: Global, s: &Session) -> Result<Bytes, AllocError>
    requires session { IsSession s.now }
    ensures text { IfOk result (λ text. (told : Option Held) (state : State) → StandsFor s.now told state → text ≡ heap_text (ledger_of state.heap.places)) }
{
    let mut text = Bytes::new(alloc);
    push_sizes(alloc, &mut text, s, all_sizes())?;
    text.append(b"objects ")?;
    push_decimal(alloc, &mut text, s.objects.len() as u64)?;
    text.append(b" bytes ")?;
    push_decimal(alloc, &mut text, s.objects.allocated())?;
    Ok(text)
}

// Adds the lines of these sizes.
fn push_sizes(alloc: Global, text: &mut Bytes, s: &Session, lines: &[u32]) -> Result<(), AllocError>
    requires session { IsSession s.now }
    requires listed { All (Contains sizes) lines.now }
    ensures { OnOk result ((told : Option Held) (state : State) → StandsFor s.now told state → text.new ≡ text.old ++ size_lines (ledger_of state.heap.places).blocks lines.now) }
{
    for size in lines {
        push_size(alloc, text, *size, s.objects.count(*size))?;
    }
    Ok(())
}

// Adds the line of a size that so many objects have.
fn push_size(alloc: Global, text: &mut Bytes, size: u32, count: u32) -> Result<(), AllocError>
    ensures { OnOk result (text.new ≡ text.old ++ size_line size count) }
{
    if count == 0 {
        return Ok(());
    }
    text.append(b"size ")?;
    push_decimal(alloc, text, size as u64)?;
    text.append(b" objects ")?;
    push_decimal(alloc, text, count as u64)?;
    text.append(b"\n")
}

/// The numbers of the collector.
pub fn stats(s: &Session) -> Answer
    requires session { IsSession s.now }
    ensures next { (told : Option Held) (state : State) → StandsFor s.now told state → NextStats state result state }
{
    Answer::Stats {
        allocated: s.objects.allocated(),
        last: s.last,
        threshold: heuristic(s).threshold(),
        image: s.objects.image_pages(),
        rounds: s.rounds,
    }
}

/// What the headers declare, with sizes and places.
pub fn tables(alloc: Global, s: &Session) -> Result<Answer, AllocError>
    requires session { IsSession s.now }
    ensures next { IfOk result (λ answer. (told : Option Held) (state : State) → StandsFor s.now told state → NextTables s.now.schema.program s.now.schema.layouts state answer state) }
{
    let schema = &s.schema;
    let text = list_program(
        alloc,
        &schema.program,
        &schema.layouts,
        schema.tails.as_slice(),
    )?;
    Ok(Answer::Tables(text))
}
