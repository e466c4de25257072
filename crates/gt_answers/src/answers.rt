// The answers to lines, of which those that only say that a command is done are counted.
ghost use Rattle.std.specs.Prelude.{◌≡◌, ◌==◌, [], ◌∷◌, ◌++◌, true, length, replicate, IfOk, OnOk};
ghost use Rattle.std.specs.List.{list_any};
ghost use Rattle.gt_next.specs.declared.answer.Answer.TheVariants.{Done};
ghost use Rattle.gt_next.specs.Texts.{is_refusal as is_refusal_of};

use gt_next::Answer;
use gt_types::{Copied, List};
use std::alloc::{AllocError, Global};
use std::marker::Model;

// An answer other than `Done`, and how many of these stand before it.
#[derive(Debug, Drop)]
pub struct Later {
    pub done: u64,
    pub answer: Answer,
}

/// The answers to the lines of a script, in order. Those that only say that a command is done are counted, and take no memory; each
/// other one takes 64 bytes. Contracts see the list of all, and whether one more takes no memory.
#[derive(Debug, Drop)]
pub struct Answers {
    later: Vec<Later>,
    done: u64,
}

impl Model for Answers {
    ghost use Rattle.std.specs.Prelude.{◌&&◌, ◌-◌, ◌^◌, nat_lt, vec_len, vec_capacity};
    ghost use Rattle.gt_answers.specs.Kept.{Kept, answers_in};

    ghost Value = { Kept };

    ghost view = { λ a. record { items = answers_in a.later.items a.done; has_room = nat_lt (vec_len a.later) (vec_capacity a.later) && nat_lt a.done (2 ^ 64 - 1) } };
}

impl Answers {
    /// No answers. It takes no memory.
    pub fn new(alloc: Global) -> Answers
        ensures none { result.items ≡ [] }
    {
        Answers {
            later: Vec::new(alloc),
            done: 0,
        }
    }

    /// Whether there is no answer.
    pub fn is_empty(&self) -> bool
        ensures empty { result ≡ (length self.now.items == 0) }
    {
        self.done == 0 && self.later.as_slice().is_empty()
    }

    /// Makes room for one more answer. Its only error is out of memory; the answers are the same.
    pub fn reserve(&mut self) -> Result<(), AllocError>
        ensures items { self.new.items ≡ self.old.items }
        ensures room { OnOk result (self.new.has_room ≡ true) }
    {
        if self.done == u64::MAX {
            return Err(AllocError);
        }
        self.later.reserve(1)
    }

    /// Adds an answer, for which there is room. It takes no memory.
    pub fn push_reserved(&mut self, answer: Answer)
        requires room { self.old.has_room ≡ true }
        ensures added { self.new.items ≡ self.old.items ++ answer ∷ [] }
    {
        match answer {
            Answer::Done => self.done += 1,
            other => {
                let done = self.done;
                self.later.push_reserved(Later {
                    done,
                    answer: other,
                });
                self.done = 0;
            }
        }
    }

    /// The answers one by one. Its only error is out of memory.
    pub fn list(&self, alloc: Global) -> Result<List<Answer>, AllocError>
        ensures answers { IfOk result (λ list. list ≡ self.now.items) }
    {
        let mut list = List::new(alloc);
        for later in &self.later {
            push_done(&mut list, later.done)?;
            list.push(later.answer.copy(alloc)?)?;
        }
        push_done(&mut list, self.done)?;
        Ok(list)
    }

    /// Whether one of the answers is a refusal. Its time grows with those that are not `Done`.
    pub fn has_refusal(&self) -> bool
        ensures refusal { result ≡ list_any is_refusal_of self.now.items }
    {
        has_refusal(&self.later)
    }
}

// Whether one of these answers is a refusal.
fn has_refusal(later: &[Later]) -> bool
    ensures refusal { result ≡ list_any (λ l. is_refusal_of l.answer) later.now }
{
    later.iter().any(|l| l.answer.is_refusal())
}

// Adds so many answers `Done`.
fn push_done(list: &mut List<Answer>, count: u64) -> Result<(), AllocError>
    ensures added { OnOk result (list.new ≡ list.old ++ replicate count Done) }
{
    for _ in 0..count {
        list.push(Answer::Done)?;
    }
    Ok(())
}
