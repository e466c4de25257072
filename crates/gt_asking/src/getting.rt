// The command `get`.
ghost use Rattle.std.specs.Prelude.{◌≡◌, IfOk, OnErr, Option, Some};
ghost use Rattle.gt_io.specs.Held.{Held};
ghost use Rattle.gt_graph.specs.Objects.{Object, object_of};
ghost use Rattle.gt_next.specs.States.{State};
ghost use Rattle.gt_next.specs.Next.{NextGet, Answers};
ghost use Rattle.gt_next.specs.Leaves.{IsObject};
ghost use Rattle.gt_session.specs.Sessions.{Goes, IsAsBefore, IsSession, KeepsBytes, StandsFor};

use crate::paths::reach;
use crate::reading::{Read, read_end};
use gt_next::{Answer, Why};
use gt_routes::{Reached, WalkFail};
use gt_script::Route;
use gt_session::Session;
use gt_types::Word;
use std::alloc::{AllocError, Global};

/// Answers what stands at the end of a path, and binds the variable to the object there or to which the pointer there leads. If memory
/// runs out, nothing changes.
pub fn get(alloc: Global, s: &mut Session, var: &Word, path: &Route) -> Result<Answer, AllocError>
    requires session { IsSession s.old }
    ensures next { IfOk result (Goes (λ state answer t. NextGet s.old.schema.program state var.now path.now answer t) s.old s.new) }
    ensures refused { IfOk result (λ answer. KeepsBytes answer s.old s.new) }
    ensures unchanged { OnErr result (IsAsBefore s.old s.new) }
    ensures space { OnErr result (s.new.objects.space ≡ s.old.objects.space) }
    ensures schema { s.new.schema ≡ s.old.schema }
{
    let read = {
        let mut to = Reached::new(alloc);
        match reach(alloc, s, path, &mut to) {
            Ok(()) => read_end(&s.schema, &s.objects, &to),
            Err(stop) => {
                drop(to);
                return match stop {
                    WalkFail::Refused(why) => Ok(Answer::Refused(why)),
                    WalkFail::Memory => Err(AllocError),
                };
            }
        }
    };
    let Some(read) = read else {
        return Ok(Answer::Refused(Why::WrongType));
    };
    match read {
        Read::Number(n) => Ok(Answer::Number(n)),
        Read::Null => Ok(Answer::Null),
        Read::Object(addr) => bind(s, var, addr),
    }
}

// Binds a variable to an object, where it is not one too many. If memory runs out, nothing changes.
fn bind(s: &mut Session, var: &Word, addr: u64) -> Result<Answer, AllocError>
    requires object { (told : Option Held) (state : State) → StandsFor s.old told state → (o : Object) × (object_of state.heap.graph.objects addr ≡ Some o) }
    ensures bound { IfOk result (Goes (λ state answer t. Answers state var.now (IsObject addr) answer t) s.old s.new) }
    ensures refused { IfOk result (λ answer. KeepsBytes answer s.old s.new) }
    ensures unchanged { OnErr result (IsAsBefore s.old s.new) }
    ensures space { OnErr result (s.new.objects.space ≡ s.old.objects.space) }
    ensures schema { s.new.schema ≡ s.old.schema }
{
    if s.vars.is_full(var) {
        return Ok(Answer::Refused(Why::TooManyVars));
    }
    s.vars.bind(var, addr)?;
    Ok(Answer::Ref { addr })
}
