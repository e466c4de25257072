//! Chain pointers, by which lists are walked without the stack.
ghost use Rattle.std.specs.Prelude.{◌≡◌, IfSome};
ghost use Rattle.gt_walk.specs.declared.rows.WalkRow.{out-WalkRow};
ghost use Rattle.gt_mark.specs.Rounds.{chain_in_note};
ghost use Rattle.gt_mark.specs.Chains.{AreLinks, HasLink, chain_place, is_link};

use crate::stack::Block;
use gt_space::Space;
use gt_walk::{Count, Tables, WalkRow, after_note, end_of, rows_of, words_in};

/// How the blocks of a chain are walked that have one element of the same walk: the rows of the walk before the chain pointer and after
/// it, the offset of this pointer, where the space ends, and at how many addresses eight bytes lie in it.
#[derive(Clone, Copy)]
pub struct Links<'a> {
    pub walk: u32,
    pub offset: u32,
    pub before: &'a [WalkRow],
    pub after: &'a [WalkRow],
    pub end: u64,
    pub words: u64,
}

impl<'a> Links<'a> {
    /// How a block is walked, and those of its chain that are walked alike; none where it has no pointer to one more of them.
    #[inline(always)]
    pub fn of(tables: &'a Tables, space: &Space, block: Block) -> Option<Links<'a>>
        ensures { IfSome result (AreLinks tables.now space.now block) }
    {
        if block.count != 1 {
            return None;
        }
        let noted = rows_of(tables, block.walk);
        let offset = chain_in_note(noted)?;
        let (before, after) = around_link(after_note(noted), offset, block.walk)?;
        Some(Links {
            walk: block.walk,
            offset,
            before,
            after,
            end: end_of(space),
            words: words_in(space),
        })
    }
}

// The offset of the chain pointer that rows tell by the note with which they begin.
#[inline(always)]
fn chain_in_note(rows: &[WalkRow]) -> Option<u32>
    ensures { result ≡ chain_in_note rows.now }
{
    match rows {
        [WalkRow::Note { chain, .. }, ..] => *chain,
        _ => None,
    }
}

// Whether a row is the pointer at an offset to one element of a walk.
#[inline(always)]
fn is_link(row: &WalkRow, offset: u32, walk: u32) -> bool
    ensures { result ≡ is_link offset walk (out-WalkRow row.now) }
{
    match row {
        WalkRow::Ptr {
            offset: at,
            walk: to,
            count: Count::Fixed(n),
            ..
        } => *at == offset && *to == walk && *n == 1,
        _ => false,
    }
}

// The rows before the first one that is the pointer at an offset to one element of a walk, and those after it.
fn around_link(rows: &[WalkRow], offset: u32, walk: u32) -> Option<(&[WalkRow], &[WalkRow])>
    ensures { IfSome result (λ around. HasLink offset walk rows.now around.0.now around.1.now) }
{
    for (at, row) in rows.iter().enumerate() {
        if is_link(row, offset, walk) {
            return Some((&rows[..at], &rows[at + 1..]));
        }
    }
    None
}

/// The address of the chain pointer of a block that is walked by these rows, where it has one element and they tell one.
#[inline(always)]
pub fn chain_place(rows: &[WalkRow], block: Block) -> Option<u64>
    ensures { result ≡ chain_place rows.now block }
{
    if block.count != 1 {
        return None;
    }
    let offset = chain_in_note(rows)?;
    block.addr.checked_add(offset as u64)
}
