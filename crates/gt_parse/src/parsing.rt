// The items of a text.
ghost use Rattle.std.specs.Prelude.{◌≡◌, ◌<◌, ◌^◌, ◌++◌, length, map, IfOk, IfErr, OnOk};
ghost use Rattle.std.specs.List.{flat_map};
ghost use Rattle.gt_types.specs.declared.faults.Fault.{Fault as TheFault};
ghost use Rattle.gt_lex.specs.Texts.{IsLexed};
ghost use Rattle.gt_items.specs.declared.items.Items.{Items as TheItems};
ghost use Rattle.gt_parse.specs.Header.{AreItems, IsFirstFault, IsStop, GivesItems, GivesFault, item_faults, unclosed_faults};
ghost use Rattle.gt_parse.specs.Answers.{item_items, earlier, first_of, IsAnswer};

use crate::constants::constants;
use crate::reading::item;
use gt_items::{Item, Items};
use gt_lex::Lexed;
use gt_marked::Unread;
use gt_search::{End, Lexeme, UNCLOSED, find_items, read_lexemes};
use gt_types::{Fault, List, Stop};
use std::alloc::{AllocError, Global};

/// The items of a text of fewer than 2 to the 32 bytes, from what `gt_lex::lex` made of it. Otherwise out of memory, or the
/// first fault, at its byte offset in the file that the caller names: `UNCLOSED`, `UNEXPECTED`, `UNSUPPORTED`,
/// `BAD_MARKER_PLACE`, and for the texts of options `gt_expr::BAD_EXPR` and `gt_expr::EXPR_TOO_LARGE`. What is a marker and
/// where it stands is said in GCC Internals, "Memory Management and Type Information".
pub fn parse(alloc: Global, file: u32, text: &[u8], lexed: &Lexed) -> Result<Items, Stop>
    requires short { length text.now < 2 ^ 32 }
    requires lexed { IsLexed text.now lexed.now.tokens lexed.now.defines }

    // What is answered is so: the items of the text, or its first fault.
    ensures items { IfOk result (AreItems text.now lexed.now.tokens lexed.now.defines) }
    ensures fault { IfErr result (IsStop file text.now lexed.now.tokens) }

    // What is so is answered, unless memory runs out.
    ensures all_items { (items : TheItems) → AreItems text.now lexed.now.tokens lexed.now.defines items → GivesItems result items }
    ensures each_fault { (first : TheFault) → first.file ≡ file → IsFirstFault text.now lexed.now.tokens first.number first.at → GivesFault result first }
{
    read(alloc, file, text, lexed)
}

// The search for items, and the reading of each of them, also after a fault: an earlier one may follow.
fn read(alloc: Global, file: u32, text: &[u8], lexed: &Lexed) -> Result<Items, Stop>
    requires { IsLexed text.now lexed.now.tokens lexed.now.defines }
    ensures { IsAnswer file text.now lexed.now.tokens lexed.now.defines result }
{
    let lexemes = read_lexemes(alloc, text, lexed)?;
    let (cut, end) = find_items(alloc, &lexemes)?;
    let (items, first) = read_items(alloc, &cut)?;
    match earlier(first, end) {
        End::Complete => Ok(Items {
            items: List::of(items),
            constants: constants(alloc, text, lexed)?,
        }),
        End::Fails { number, at } => Err(Stop::At(Fault { number, file, at })),
    }
}

// What the items declare, and the first of their faults.
fn read_items(alloc: Global, cut: &[&[Lexeme]]) -> Result<(Vec<Item>, End), AllocError>
    ensures items { IfOk result (λ found. found.0.items ≡ flat_map item_items (map (λ one. one.now) cut.now)) }
    ensures first { IfOk result (λ found. found.1 ≡ first_of (flat_map item_faults (map (λ one. one.now) cut.now))) }
{
    let mut items = Vec::new(alloc);
    let mut first = End::Complete;
    for one in cut {
        first = earlier(first, read_item(alloc, *one, &mut items)?);
    }
    Ok((items, first))
}

// Adds what an item declares, or gives its fault.
fn read_item(alloc: Global, one: &[Lexeme], items: &mut Vec<Item>) -> Result<End, AllocError>
    ensures items { OnOk result (items.new.items ≡ items.old.items ++ item_items one.now) }
    ensures fault { IfOk result (λ end. end ≡ first_of (item_faults one.now)) }
{
    match item(alloc, one) {
        Ok(None) => Ok(End::Complete),
        Ok(Some(found)) => {
            items.push(found)?;
            Ok(End::Complete)
        }
        Err(Unread::Memory) => Err(AllocError),
        Err(Unread::Ended) => Ok(unclosed_end(one)),
        Err(Unread::Fault { number, at }) => Ok(End::Fails { number, at }),
    }
}

// The fault of an item whose tokens end too early.
fn unclosed_end(one: &[Lexeme]) -> End
    ensures { result ≡ first_of (unclosed_faults one.now) }
{
    match one {
        [] => End::Complete,
        [first, ..] => End::Fails {
            number: UNCLOSED,
            at: first.spot().start,
        },
    }
}

// The earlier of two faults, the first where both stand at one place.
fn earlier(one: End, other: End) -> End
    ensures { result ≡ earlier one other }
{
    match (one, other) {
        (End::Complete, end) | (end, End::Complete) => end,
        (End::Fails { at, .. }, End::Fails { at: place, .. }) => {
            if place < at { other } else { one }
        }
    }
}
