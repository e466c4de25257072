// The command `find`.
ghost use Rattle.std.specs.Prelude.{Option};
ghost use Rattle.gt_io.specs.Held.{Held};
ghost use Rattle.gt_next.specs.States.{State};
ghost use Rattle.gt_next.specs.Caching.{NextFind};
ghost use Rattle.gt_session.specs.Sessions.{IsSession, StandsFor};

use crate::members::{member, named_cache};
use gt_next::{Answer, Why};
use gt_session::Session;
use gt_types::Word;

/// The address of the object that the cache of this name maps the object to that `key` means, or null where it maps it to none.
pub fn find(s: &Session, cache: &Word, key: &Word) -> Answer
    requires session { IsSession s.now }
    ensures next { (told : Option Held) (state : State) → StandsFor s.now told state → NextFind s.now.schema.program state cache.now key.now result state }
{
    let Some(named) = named_cache(s, cache) else {
        return Answer::Refused(Why::NoCache);
    };
    match member(s, key, named.key) {
        Err(why) => Answer::Refused(why),
        Ok(key) => match s.caches.value(named.place, key) {
            Some(addr) => Answer::Ref { addr },
            None => Answer::Null,
        },
    }
}
