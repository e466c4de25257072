// The edges of walks.
ghost use Rattle.std.specs.Prelude.{◌≡◌, ◌+◌, ◌-◌, ◌<◌, ◌^◌, find, length};
ghost use Rattle.gt_walk.specs.declared.rows.Arm.{out-Arm};
ghost use Rattle.std.specs.List.{position_from};
ghost use Rattle.std.specs.Option.{option_copied};
ghost use Rattle.gt_tree.specs.Fits.{is_tag, is_default};
ghost use Rattle.gt_walk.specs.Rows.{edges_of, walk_edges, rows_of, size_in_note, pointer_edges, word_at};
ghost use Rattle.gt_walk.specs.Sinks.{CanTake, Took};
ghost use Rattle.gt_walk.specs.Frames.{frame_of};
ghost use Rattle.gt_walk.specs.ByRows.{after_note, edges_of_rows, element_edges, run_edges};
ghost use Rattle.gt_walk.specs.Visiting.{elements, row_at, rows_at, stood, chosen_of, arm_at, element_row};

use crate::frames::Frame;
use crate::lengths::{count_of, end_of, length_of, row_value, word_at, words_in};
use crate::plain::{is_plain, visit_plain_row};
use crate::{Arm, Count, EdgeSink, Tables, WalkRow};
use gt_space::Space;
use gt_types::Active;
use sqlite_items::at;

// No more walks stand one inside another.
const MOST_NESTED: u32 = 34;

// The tables, and the space in which edges are looked for.
#[derive(Clone, Copy)]
struct Source<'a> {
    tables: &'a Tables,
    space: &'a Space,
}

// Where an element lies, how many bytes it takes, and how many there are from it on.
#[derive(Clone, Copy)]
pub struct Elements {
    pub place: u64,
    pub size: u32,
    pub n: u32,
}

impl Elements {
    fn new(place: u64, size: u32, n: u32) -> Elements
        ensures { result ≡ elements place size n }
    {
        Elements { place, size, n }
    }
}

// A pointer that is not null is an edge.
fn visit_pointer<S: EdgeSink>(
    space: &Space,
    frame: &Frame,
    offset: u32,
    walk: u32,
    count: &Count,
    sink: &mut S,
)
    requires near { frame.now.at < 2 ^ 32 }
    requires can { CanTake S.takes S.leaves sink.old (pointer_edges space.now (frame_of frame.now) (frame.now.at + offset) walk count.now (word_at space.now (frame.now.at + offset))) }
    ensures took { Took S.leaves sink.old (pointer_edges space.now (frame_of frame.now) (frame.now.at + offset) walk count.now (word_at space.now (frame.now.at + offset))) sink.new }
{
    let place = frame.at + offset as u64;
    let Some(target) = word_at(space, place) else {
        return;
    };
    if target != 0 {
        sink.edge(place, target, walk, count_of(space, frame, count));
    }
}

// Whether an arm has the value of the expression as its tag.
fn is_tag(value: Option<i64>, active: Active) -> bool
    ensures { result ≡ is_tag value active }
{
    match (value, active) {
        (Some(value), Active::Tag(tag)) => value == tag,
        _ => false,
    }
}

fn is_default(active: Active) -> bool
    ensures { result ≡ is_default active }
{
    matches!(active, Active::Other)
}

// The place of the first arm that has the value of the expression as its tag.
fn tag_place(value: Option<i64>, arms: &[Arm]) -> Option<usize>
    ensures { result ≡ position_from (λ a. is_tag value (out-Arm a).active) 0 arms.now }
{
    arms.iter().position(|arm| is_tag(value, arm.active))
}

// The place of the first arm that is the default.
fn default_place(arms: &[Arm]) -> Option<usize>
    ensures { result ≡ position_from (λ a. is_default (out-Arm a).active) 0 arms.now }
{
    arms.iter().position(|arm| is_default(arm.active))
}

// The first arm that has the value of the expression as its tag.
fn find_tag(value: Option<i64>, arms: &[Arm]) -> Option<&Arm>
    ensures { option_copied result ≡ find (λ a. is_tag value (out-Arm a).active) arms.now }
{
    match tag_place(value, arms) {
        Some(place) => at(arms, place),
        None => None,
    }
}

// The first arm that is the default.
fn find_default(arms: &[Arm]) -> Option<&Arm>
    ensures { option_copied result ≡ find (λ a. is_default (out-Arm a).active) arms.now }
{
    match default_place(arms) {
        Some(place) => at(arms, place),
        None => None,
    }
}

// The arm of a value: the one with this tag, else the default, else none.
fn find_arm(value: Option<i64>, arms: &[Arm]) -> Option<&Arm>
    ensures { option_copied result ≡ chosen_of value arms.now }
{
    match find_tag(value, arms) {
        Some(arm) => Some(arm),
        None => find_default(arms),
    }
}

// The edges of a walk where it stands, where less than so many walks nest.
#[cycle(visiting)]
#[inline(never)]
fn visit_walk<S: EdgeSink>(source: &Source<'_>, walk: u32, left: u32, frame: &Frame, sink: &mut S)
    requires near { frame.now.at < 2 ^ 34 }
    requires can { CanTake S.takes S.leaves sink.old (walk_edges source.now.tables.now source.now.space.now left walk (frame_of frame.now)) }
    ensures took { Took S.leaves sink.old (walk_edges source.now.tables.now source.now.space.now left walk (frame_of frame.now)) sink.new }
{
    if left == 0 || frame.at >= end_of(source.space) {
        return;
    }
    if let Some(rows) = source.tables.walks.get(walk as usize) {
        visit_rows(source, rows.as_slice(), left - 1, frame, sink);
    }
}

// The edges of rows, one after another.
#[cycle(visiting)]
#[inline(always)]
fn visit_rows<S: EdgeSink>(
    source: &Source<'_>,
    rows: &[WalkRow],
    left: u32,
    frame: &Frame,
    sink: &mut S,
)
    requires near { frame.now.at < 2 ^ 32 }
    requires can { CanTake S.takes S.leaves sink.old (rows_at source.now.tables.now source.now.space.now left rows.now (frame_of frame.now)) }
    ensures took { Took S.leaves sink.old (rows_at source.now.tables.now source.now.space.now left rows.now (frame_of frame.now)) sink.new }
{
    for row in rows {
        visit_row(source, row, left, frame, sink);
    }
}

// The edges of a row.
#[cycle(visiting)]
#[inline(always)]
fn visit_row<S: EdgeSink>(
    source: &Source<'_>,
    row: &WalkRow,
    left: u32,
    frame: &Frame,
    sink: &mut S,
)
    requires near { frame.now.at < 2 ^ 32 }
    requires can { CanTake S.takes S.leaves sink.old (row_at source.now.tables.now source.now.space.now left row.now (frame_of frame.now)) }
    ensures took { Took S.leaves sink.old (row_at source.now.tables.now source.now.space.now left row.now (frame_of frame.now)) sink.new }
{
    match row {
        WalkRow::Note { .. } => (),
        WalkRow::Ptr {
            offset,
            walk,
            count,
            ..
        } => visit_pointer(source.space, frame, *offset, *walk, count, sink),
        WalkRow::Sub { offset, walk } => {
            let inner = frame.enter(*offset);
            visit_walk(source, *walk, left, &inner, sink)
        }
        WalkRow::Rep {
            offset,
            n,
            size,
            elem,
        } => {
            let elements = Elements::new(frame.at + *offset as u64, *size, *n);
            visit_elements(source, elem.get(), left, frame, elements, sink)
        }
        WalkRow::Tail {
            offset,
            len,
            size,
            elem,
        } => {
            let n = length_of(row_value(source.space, frame, len));
            let elements = Elements::new(frame.at + *offset as u64, *size, n);
            visit_elements(source, elem.get(), left, frame, elements, sink)
        }
        WalkRow::Switch { desc, arms } => {
            let value = row_value(source.space, frame, desc);
            visit_arm(source, arms, value, left, frame, sink)
        }
    }
}

// The edges of elements, each after the one before it.
#[cycle(visiting)]
#[inline(never)]
fn visit_elements<S: EdgeSink>(
    source: &Source<'_>,
    elem: &WalkRow,
    left: u32,
    frame: &Frame,
    elements: Elements,
    sink: &mut S,
)
    requires near { elements.place < 2 ^ 34 }
    requires can { CanTake S.takes S.leaves sink.old (run_edges (λ p. row_at source.now.tables.now source.now.space.now left elem.now (stood (frame_of frame.now) p)) elements.place elements.size elements.n) }
    ensures took { Took S.leaves sink.old (run_edges (λ p. row_at source.now.tables.now source.now.space.now left elem.now (stood (frame_of frame.now) p)) elements.place elements.size elements.n) sink.new }
{
    let end = end_of(source.space);
    let mut place = elements.place;
    for _ in 0..elements.n {
        if place >= end {
            return;
        }
        let inner = Frame {
            at: place,
            ..*frame
        };
        visit_row(source, elem, left, &inner, sink);
        place += elements.size as u64;
    }
}

// The edges of the arm of a value.
#[cycle(visiting)]
#[inline(never)]
fn visit_arm<S: EdgeSink>(
    source: &Source<'_>,
    arms: &[Arm],
    value: Option<i64>,
    left: u32,
    frame: &Frame,
    sink: &mut S,
)
    requires near { frame.now.at < 2 ^ 32 }
    requires can { CanTake S.takes S.leaves sink.old (arm_at source.now.tables.now source.now.space.now left (chosen_of value arms.now) (frame_of frame.now)) }
    ensures took { Took S.leaves sink.old (arm_at source.now.tables.now source.now.space.now left (chosen_of value arms.now) (frame_of frame.now)) sink.new }
{
    if let Some(arm) = find_arm(value, arms) {
        if let Some(row) = &arm.row {
            visit_row(source, row.get(), left, frame, sink);
        }
    }
}

// The bytes of an element, by the note with which the rows begin.
fn size_in_note(rows: &[WalkRow]) -> u32
    ensures { result ≡ size_in_note rows.now }
{
    match rows {
        [WalkRow::Note { size, .. }, ..] => *size,
        _ => 0,
    }
}

/// The rows after the note with which they begin, which gives no edge.
#[inline(always)]
pub fn after_note(rows: &[WalkRow]) -> &[WalkRow]
    ensures { result.now ≡ after_note rows.now }
{
    match rows {
        [WalkRow::Note { .. }, rest @ ..] => rest,
        _ => rows,
    }
}

// The edges of a row that is not plain, at an element of a block.
#[cold]
#[inline(never)]
fn visit_other_row<S: EdgeSink>(
    tables: &Tables,
    space: &Space,
    row: &WalkRow,
    at: u64,
    sink: &mut S,
)
    requires near { at < 2 ^ 32 }
    requires can { CanTake S.takes S.leaves sink.old (element_row tables.now space.now at row.now) }
    ensures took { Took S.leaves sink.old (element_row tables.now space.now at row.now) sink.new }
{
    let source = Source { tables, space };
    let frame = Frame::new(at);
    visit_row(&source, row, MOST_NESTED - 1, &frame, sink);
}

// The edges of a row at an element of a block.
#[inline(always)]
fn visit_element_row<S: EdgeSink>(
    tables: &Tables,
    space: &Space,
    words: u64,
    row: &WalkRow,
    at: u64,
    sink: &mut S,
)
    requires words { words ≡ length space.now.bytes - 7 }
    requires near { at < 2 ^ 32 }
    requires can { CanTake S.takes S.leaves sink.old (element_row tables.now space.now at row.now) }
    ensures took { Took S.leaves sink.old (element_row tables.now space.now at row.now) sink.new }
{
    if is_plain(row) {
        visit_plain_row(space, words, row, at, sink);
    } else {
        visit_other_row(tables, space, row, at, sink);
    }
}

/// Calls the sink for the edges of one element, by the rows of its walk after their note. `words` is what `words_in` says of the space.
/// These are the edges that `visit` gives for a count of 1 (`laws`).
#[inline(always)]
pub fn visit_element<S: EdgeSink>(
    tables: &Tables,
    rows: &[WalkRow],
    space: &Space,
    words: u64,
    addr: u64,
    sink: &mut S,
)
    requires words { words ≡ length space.now.bytes - 7 }
    requires near { addr < 2 ^ 32 }
    requires can { CanTake S.takes S.leaves sink.old (element_edges tables.now space.now rows.now addr) }
    ensures took { Took S.leaves sink.old (element_edges tables.now space.now rows.now addr) sink.new }
{
    for row in rows {
        visit_element_row(tables, space, words, row, addr, sink);
    }
}

// The edges of the one element of a block.
#[inline(always)]
fn visit_single<S: EdgeSink>(source: &Source<'_>, rows: &[WalkRow], place: u64, sink: &mut S)
    requires can { CanTake S.takes S.leaves sink.old (element_edges source.now.tables.now source.now.space.now rows.now place) }
    ensures took { Took S.leaves sink.old (element_edges source.now.tables.now source.now.space.now rows.now place) sink.new }
{
    if place < end_of(source.space) {
        let words = words_in(source.space);
        visit_element(source.tables, rows, source.space, words, place, sink);
    }
}

// The edges of elements of a block, each after the one before it.
#[inline(never)]
fn visit_block<S: EdgeSink>(source: &Source<'_>, rows: &[WalkRow], elements: Elements, sink: &mut S)
    requires can { CanTake S.takes S.leaves sink.old (run_edges (element_edges source.now.tables.now source.now.space.now rows.now) elements.place elements.size elements.n) }
    ensures took { Took S.leaves sink.old (run_edges (element_edges source.now.tables.now source.now.space.now rows.now) elements.place elements.size elements.n) sink.new }
{
    let end = end_of(source.space);
    let words = words_in(source.space);
    let mut place = elements.place;
    for _ in 0..elements.n {
        if place >= end {
            return;
        }
        visit_element(source.tables, rows, source.space, words, place, sink);
        place += elements.size as u64;
    }
}

/// The rows of a walk; none where there is no such walk.
#[inline(always)]
pub fn rows_of(tables: &Tables, walk: u32) -> &[WalkRow]
    ensures { result.now ≡ rows_of tables.now walk }
{
    let Some(rows) = tables.walks.get(walk as usize) else {
        return &[];
    };
    rows.as_slice()
}

/// What `visit` does, where the rows of the walk are at hand. The edges are the same (`laws`).
#[inline(always)]
pub fn visit_with_rows<S: EdgeSink>(
    tables: &Tables,
    rows: &[WalkRow],
    count: u32,
    space: &Space,
    addr: u64,
    sink: &mut S,
)
    requires can { CanTake S.takes S.leaves sink.old (edges_of_rows tables.now rows.now count space.now addr) }
    ensures took { Took S.leaves sink.old (edges_of_rows tables.now rows.now count space.now addr) sink.new }
{
    let source = Source { tables, space };
    let bare = after_note(rows);
    if count == 1 {
        visit_single(&source, bare, addr, sink);
    } else {
        let elements = Elements::new(addr, size_in_note(rows), count);
        visit_block(&source, bare, elements, sink);
    }
}

/// Calls the sink once for each edge that a walk gives on the bytes from an address on, for so many elements, in the order of the
/// rows: with the address of the pointer, the address that it holds, and the walk and the count of the block there. A root's walk is
/// visited at address 0. What does not lie in the space gives no edge. It takes no memory.
pub fn visit<S: EdgeSink>(
    tables: &Tables,
    walk: u32,
    count: u32,
    space: &Space,
    addr: u64,
    sink: &mut S,
)
    requires can { CanTake S.takes S.leaves sink.old (edges_of tables.now walk count space.now addr) }
    ensures took { Took S.leaves sink.old (edges_of tables.now walk count space.now addr) sink.new }
{
    let Some(rows) = tables.walks.get(walk as usize) else {
        return;
    };
    visit_with_rows(tables, rows.as_slice(), count, space, addr, sink);
}
