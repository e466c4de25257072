// The command `set`.
ghost use Rattle.std.specs.Prelude.{◌≡◌, IfOk, OnErr, MatchOption, Option, Some, Err};
ghost use Rattle.gt_io.specs.Held.{Held};
ghost use Rattle.gt_graph.specs.Good.{Heap};
ghost use Rattle.gt_objects.specs.Holding.{IsHeapOf};
ghost use Rattle.gt_elements.specs.Elements.{owner_of};
ghost use Rattle.gt_next.specs.declared.answer.Why.{Why};
ghost use Rattle.gt_next.specs.States.{State};
ghost use Rattle.gt_next.specs.Spots.{spot};
ghost use Rattle.gt_next.specs.Paths.{Leads};
ghost use Rattle.gt_next.specs.Leaves.{IsUnboundValue};
ghost use Rattle.gt_next.specs.Next.{NextSet};
ghost use Rattle.gt_routes.specs.declared.steps.WalkFail.TheVariants.{Refused};
ghost use Rattle.gt_session.specs.Sessions.{Goes, IsAsBefore, IsSession, KeepsBytes, StandsFor};
ghost use Rattle.gt_writes.specs.declared.found.Found.{Found};
ghost use Rattle.gt_writes.specs.FoundLeaves.{IsFoundAt};
ghost use Rattle.gt_writes.specs.SpotWrites.{SpotTakes};
ghost use Rattle.gt_asking.specs.Judging.{IsGivenAs, RefusesAim};

use crate::leaves::judge;
use crate::paths::reach;
use gt_elements::Owner;
use gt_next::{Answer, Why};
use gt_routes::{Places, Reached, WalkFail};
use gt_script::{Given, Route};
use gt_session::Session;
use gt_value::{LeafContent, ValueFail};
use gt_writes::{Found, write};
use std::alloc::{AllocError, Global};

// Where a leaf may be written, as `Reached` says it: into the static record or an object, and on by places in its value; and where it
// lies, if that is known.
#[derive(Drop)]
struct Aim {
    owner: Owner,
    found: Option<Found>,
    places: Places,
}

// What a value is as a leaf; None where it is a variable that is not bound.
fn leaf_given(s: &Session, value: &Given) -> Option<LeafContent>
    ensures given { MatchOption result ((told : Option Held) (state : State) → StandsFor s.now told state → IsUnboundValue state value.now) (λ leaf. (told : Option Held) (state : State) → StandsFor s.now told state → IsGivenAs state value.now leaf) }
{
    match value {
        Given::Integer(n) => Some(LeafContent::Num(n.get())),
        Given::Null => Some(LeafContent::Null),
        Given::Var(name) => match s.vars.get(name) {
            Some(addr) => Some(LeafContent::To(addr)),
            None => None,
        },
    }
}

// Where a path leads, if a leaf may be written there.
fn take_aim(alloc: Global, s: &Session, path: &Route, leaf: LeafContent) -> Result<Aim, WalkFail>
    requires session { IsSession s.now }
    ensures takes { IfOk result (λ aim. (heap : Heap) → IsHeapOf s.now.schema.program s.now.schema.layouts s.now.objects heap → SpotTakes s.now.schema.program heap.graph (spot (owner_of aim.owner) aim.places.items) leaf) }
    ensures found { IfOk result (λ aim. (f : Found) → aim.found ≡ Some f → (heap : Heap) → IsHeapOf s.now.schema.program s.now.schema.layouts s.now.objects heap → IsFoundAt s.now.schema.program s.now.schema.layouts s.now.objects heap (owner_of aim.owner) aim.places.items f) }
    ensures leads { IfOk result (λ aim. (told : Option Held) (state : State) → StandsFor s.now told state → Leads s.now.schema.program state path.now (spot (owner_of aim.owner) aim.places.items)) }
    ensures refused { (why : Why) → result ≡ Err (Refused why) → (told : Option Held) (state : State) → StandsFor s.now told state → RefusesAim s.now.schema.program state path.now leaf why }
{
    let mut to = Reached::new(alloc);
    match reach(alloc, s, path, &mut to) {
        Ok(()) => {}
        Err(stop) => return Err(stop),
    }
    match judge(&s.schema, &s.objects, &to, leaf) {
        Err(why) => Err(WalkFail::Refused(why)),
        Ok(found) => {
            let Reached { owner, places, .. } = to;
            Ok(Aim {
                owner,
                found,
                places,
            })
        }
    }
}

/// Writes a value at the end of a path. If memory runs out, nothing changes.
pub fn set(
    alloc: Global,
    s: &mut Session,
    path: &Route,
    value: &Given,
) -> Result<Answer, AllocError>
    requires session { IsSession s.old }
    ensures next { IfOk result (Goes (λ state answer t. NextSet s.old.schema.program state path.now value.now answer t) s.old s.new) }
    ensures refused { IfOk result (λ answer. KeepsBytes answer s.old s.new) }
    ensures unchanged { OnErr result (IsAsBefore s.old s.new) }
    ensures space { OnErr result (s.new.objects.space ≡ s.old.objects.space) }
    ensures schema { s.new.schema ≡ s.old.schema }
{
    let Some(leaf) = leaf_given(s, value) else {
        return Ok(Answer::Refused(Why::Unbound));
    };
    let aimed = match take_aim(alloc, s, path, leaf) {
        Ok(aimed) => aimed,
        Err(stop) => {
            return match stop {
                WalkFail::Refused(why) => Ok(Answer::Refused(why)),
                WalkFail::Memory => Err(AllocError),
            };
        }
    };
    let places = aimed.places.as_slice();
    match write(
        alloc,
        &s.schema,
        &mut s.objects,
        aimed.owner,
        places,
        aimed.found,
        leaf,
    ) {
        Ok(()) => Ok(Answer::Done),
        Err(fail) => match fail {
            ValueFail::Shape => Ok(Answer::Refused(Why::Shape)),
            ValueFail::Memory => Err(AllocError),
        },
    }
}
