// Where the items of a text begin and end.
ghost use Rattle.std.specs.Prelude.{◌≡◌, ◌≤◌, ◌<◌, [], length, map, IfOk, Ok};
ghost use Rattle.gt_search.specs.Search.{Searches};
ghost use Rattle.gt_search.specs.Searching.{none_begun, step, opened_in, closed_in, passed_in, item_end, wrapper_at, end_in, turn_at, FitsIn};

use crate::faults::{UNCLOSED, UNEXPECTED};
use crate::lexeme::{Bracket, Lexeme};
use crate::stack::Stack;
use std::alloc::{AllocError, Global};

/// How the search for items ends: at the end of the text, or with a fault.
#[derive(Clone, Copy, Debug, PartialEq, Eq)]
pub enum End {
    Complete,
    Fails { number: u8, at: u32 },
}

/// The tokens of an item so far: the brackets that are open after them, whether `GTY` stands directly before what follows, and
/// whether a brace that follows begins the body of a function.
#[derive(Drop)]
pub struct Begun {
    pub opened: Stack<Bracket>,
    pub marks: bool,
    pub called: bool,
}

/// What one more token does to an item: the item goes on, ends with it, or has a closing bracket that does not match.
#[derive(Drop)]
pub enum Step {
    Goes(Begun),
    Ends,
    Stops { at: u32 },
}

/// How the item at the front ends: with its last token, or not before a closing bracket that does not match, or not before the
/// end of the text.
#[derive(Clone, Copy, Debug, PartialEq, Eq)]
pub enum ItemEnd {
    Whole { len: usize },
    Unmatched { at: u32 },
    Unended,
}

/// What stands at the front of the rest of a text.
#[derive(Clone, Copy, Debug, PartialEq, Eq)]
pub enum Turn {
    Wrapper { brace: u32, len: usize },
    WrapperEnd,
    Item { len: usize },
    Last(End),
}

impl Begun {
    // An opening bracket. Within it the state is the one after it.
    fn open(mut self, bracket: Bracket) -> Result<Begun, AllocError>
        ensures { IfOk result (λ begun. begun ≡ opened_in self bracket) }
    {
        if self.opened.is_empty() {
            self.called = self.called || bracket == Bracket::Round && !self.marks;
            self.marks = false;
        }
        self.opened.push(bracket)?;
        Ok(self)
    }

    // A closing bracket. One that closes the body of a function ends the item.
    fn close(mut self, bracket: Bracket, at: u32) -> Step
        ensures { result ≡ closed_in self bracket at }
    {
        match self.opened.pop() {
            Some(last) if last == bracket => {}
            _ => return Step::Stops { at },
        }
        if self.opened.is_empty() && bracket == Bracket::Brace && self.called {
            return Step::Ends;
        }
        Step::Goes(self)
    }

    // Any other token.
    fn pass(mut self, token: &Lexeme) -> Step
        ensures { result ≡ passed_in self token.now }
    {
        if !self.opened.is_empty() {
            return Step::Goes(self);
        }
        if matches!(token, Lexeme::Semicolon(_)) {
            return Step::Ends;
        }
        self.marks = matches!(token, Lexeme::Gty(_));
        self.called = self.called && !matches!(token, Lexeme::Equals(_));
        Step::Goes(self)
    }

    fn step(self, token: &Lexeme) -> Result<Step, AllocError>
        ensures { IfOk result (λ next. next ≡ step self token.now) }
    {
        match token {
            Lexeme::Open(bracket, _) => Ok(Step::Goes(self.open(*bracket)?)),
            Lexeme::Close(bracket, spot) => Ok(self.close(*bracket, spot.start)),
            _ => Ok(self.pass(token)),
        }
    }
}

// How the item at the front of the tokens ends.
fn item_end(alloc: Global, tokens: &[Lexeme]) -> Result<ItemEnd, AllocError>
    ensures { IfOk result (λ end. end ≡ item_end none_begun tokens.now) }
{
    let mut begun = Begun {
        opened: Stack::new(alloc),
        marks: false,
        called: false,
    };
    for (at, token) in tokens.iter().enumerate() {
        match begun.step(token)? {
            Step::Goes(next) => begun = next,
            Step::Ends => return Ok(ItemEnd::Whole { len: at + 1 }),
            Step::Stops { at } => return Ok(ItemEnd::Unmatched { at }),
        }
    }
    Ok(ItemEnd::Unended)
}

// The wrapper at the front: the place of its brace, and how many tokens it has.
#[tactic(auto, unfolding(crate::specs::Searching::wrapper_at))]
fn wrapper_at(tokens: &[Lexeme]) -> Option<(u32, usize)>
    ensures { result ≡ wrapper_at tokens.now }
{
    match tokens {
        [
            Lexeme::Extern(_),
            Lexeme::Quoted(language),
            Lexeme::Open(Bracket::Brace, brace),
            ..
        ] if language.word.is("\"C\"") => Some((brace.start, 3)),
        [
            Lexeme::Reserved(word),
            Lexeme::Open(Bracket::Brace, brace),
            ..
        ] if word.word.is("namespace") => Some((brace.start, 2)),
        [
            Lexeme::Reserved(word),
            Lexeme::Name(_),
            Lexeme::Open(Bracket::Brace, brace),
            ..
        ] if word.word.is("namespace") => Some((brace.start, 3)),
        _ => None,
    }
}

// The end of a text in some wrappers.
fn end_in(wrappers: &Stack<u32>) -> End
    ensures { result ≡ end_in wrappers.now }
{
    match wrappers.bottom() {
        None => End::Complete,
        Some(at) => End::Fails {
            number: UNCLOSED,
            at: *at,
        },
    }
}

// What stands at the front where some wrappers are open.
#[tactic(auto, unfolding(crate::specs::Searching::turn_at))]
fn next_turn(alloc: Global, wrappers: &Stack<u32>, tokens: &[Lexeme]) -> Result<Turn, AllocError>
    ensures turn { IfOk result (λ turn. turn ≡ turn_at wrappers.now tokens.now) }
    ensures fits { IfOk result (FitsIn tokens.now) }
{
    if let Some((brace, len)) = wrapper_at(tokens) {
        return Ok(Turn::Wrapper { brace, len });
    }
    let [first, ..] = tokens else {
        return Ok(Turn::Last(end_in(wrappers)));
    };
    if matches!(first, Lexeme::Close(Bracket::Brace, _)) && !wrappers.is_empty() {
        return Ok(Turn::WrapperEnd);
    }
    match item_end(alloc, tokens)? {
        ItemEnd::Whole { len } => Ok(Turn::Item { len }),
        ItemEnd::Unmatched { at } => Ok(Turn::Last(End::Fails {
            number: UNEXPECTED,
            at,
        })),
        ItemEnd::Unended => {
            let at = wrappers.bottom().copied().unwrap_or(first.spot().start);
            Ok(Turn::Last(End::Fails {
                number: UNCLOSED,
                at,
            }))
        }
    }
}

/// The items of the tokens in their order, and how the search ends.
pub fn find_items(alloc: Global, tokens: &[Lexeme]) -> Result<(Vec<&[Lexeme]>, End), AllocError>
    ensures { IfOk result (λ found. Searches [] tokens.now (map (λ one. one.now) found.0.items) found.1) }
{
    let mut items = Vec::new(alloc);
    let mut wrappers = Stack::new(alloc);
    let mut rest = tokens;
    'search: loop {
        match next_turn(alloc, &wrappers, rest)? {
            Turn::Wrapper { brace, len } => {
                wrappers.push(brace)?;
                (_, rest) = rest.split_at(len);
            }
            Turn::WrapperEnd => {
                wrappers.pop();
                (_, rest) = rest.split_at(1);
            }
            Turn::Item { len } => {
                let (item, following) = rest.split_at(len);
                items.push(item)?;
                rest = following;
            }
            Turn::Last(end) => return Ok((items, end)),
        }
    }
}
