// The command `put`.
ghost use Rattle.std.specs.Prelude.{◌≡◌, ◌≤◌, ◌<◌, ℕ, List, None, Some, IfErr, IfOk, MatchBool, OnErr, Option, length, slice_get};
ghost use Rattle.gt_graph.specs.Objects.{pairs_in};
ghost use Rattle.gt_caches.specs.Pairs.{pairs_of};
ghost use Rattle.gt_io.specs.Held.{Held};
ghost use Rattle.gt_next.specs.declared.answer.Answer.TheVariants.{Refused};
ghost use Rattle.gt_next.specs.States.{State};
ghost use Rattle.gt_next.specs.Caching.{NextPut, value_of_key};
ghost use Rattle.gt_session.specs.Sessions.{Goes, IsAsBefore, IsSession, KeepsBytes, StandsFor};
ghost use Rattle.gt_caching.specs.Members.{MayPut, HasRoom};

use crate::members::{member, named_cache};
use gt_next::{Answer, Why};
use gt_session::Session;
use gt_types::Word;
use std::alloc::AllocError;

// The most pairs that all caches have together.
const MAX_PAIRS: usize = 1048576;

// A pair that may be put: the place of its cache, and the addresses of its key and of its value.
#[derive(Clone, Copy)]
pub(crate) struct NewPair {
    pub(crate) place: usize,
    pub(crate) key: u64,
    pub(crate) value: u64,
}

// Whether a pair with this key is one too many.
fn is_too_many(s: &Session, place: usize, key: u64) -> bool
    requires there { place < length s.now.caches }
    ensures too_many { (pairs : List (ℕ × ℕ)) → slice_get (pairs_of s.now.caches) place ≡ Some pairs → MatchBool result ((value_of_key key pairs ≡ None) × (MAX_PAIRS ≤ pairs_in (pairs_of s.now.caches))) (HasRoom key pairs (pairs_in (pairs_of s.now.caches))) }
{
    s.caches.value(place, key).is_none() && s.caches.len() >= MAX_PAIRS
}

// The pair that is to be put, if it may be.
fn new_pair(s: &Session, cache: &Word, key: &Word, value: &Word) -> Result<NewPair, Why>
    requires session { IsSession s.now }
    ensures pair { IfOk result (λ pair. (told : Option Held) (state : State) → StandsFor s.now told state → MayPut s.now.schema.program state cache.now key.now value.now pair) }
    ensures refused { IfErr result (λ why. (told : Option Held) (state : State) → StandsFor s.now told state → NextPut s.now.schema.program state cache.now key.now value.now (Refused why) state) }
{
    let Some(named) = named_cache(s, cache) else {
        return Err(Why::NoCache);
    };
    let key = match member(s, key, named.key) {
        Ok(key) => key,
        Err(why) => return Err(why),
    };
    let value = match member(s, value, named.value) {
        Ok(value) => value,
        Err(why) => return Err(why),
    };
    if is_too_many(s, named.place, key) {
        return Err(Why::TooLarge);
    }
    Ok(NewPair {
        place: named.place,
        key,
        value,
    })
}

/// Gives the object that `key` means, in the cache of this name, the object that `value` means. If memory runs out, nothing changes.
pub fn put(s: &mut Session, cache: &Word, key: &Word, value: &Word) -> Result<Answer, AllocError>
    requires session { IsSession s.old }
    ensures next { IfOk result (Goes (λ state answer t. NextPut s.old.schema.program state cache.now key.now value.now answer t) s.old s.new) }
    ensures refused { IfOk result (λ answer. KeepsBytes answer s.old s.new) }
    ensures unchanged { OnErr result (IsAsBefore s.old s.new) }
    ensures objects { s.new.objects ≡ s.old.objects }
    ensures schema { s.new.schema ≡ s.old.schema }
{
    match new_pair(s, cache, key, value) {
        Err(why) => Ok(Answer::Refused(why)),
        Ok(pair) => {
            s.caches.put(pair.place, pair.key, pair.value)?;
            Ok(Answer::Done)
        }
    }
}
