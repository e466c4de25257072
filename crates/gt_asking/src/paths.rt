// Where a path of a script leads.
ghost use Rattle.std.specs.Prelude.{◌≡◌, Err, IfOk, OnOk, Option};
ghost use Rattle.gt_io.specs.Held.{Held};
ghost use Rattle.gt_graph.specs.Good.{Heap};
ghost use Rattle.gt_objects.specs.Holding.{IsHeapOf};
ghost use Rattle.gt_next.specs.States.{State};
ghost use Rattle.gt_next.specs.Paths.{Leads, RefusesPath};
ghost use Rattle.gt_routes.specs.Reaching.{spot_of, IsEndAt, IsFirstIn, EndsInFirst, IsStart, start_of as spot_of_start};
ghost use Rattle.gt_routes.specs.declared.steps.WalkFail.TheVariants.{Refused};
ghost use Rattle.gt_session.specs.Sessions.{StandsFor, IsSession};
ghost use Rattle.gt_next.specs.Paths.{Begins, RefusesStart};

use gt_next::Why;
use gt_routes::{Reached, Start, WalkFail, walk};
use gt_script::Route;
use gt_session::Session;
use std::alloc::Global;

// Where a path starts: at the object of its variable, or at the root of its name.
fn start_of(s: &Session, path: &Route) -> Result<Start, Why>
    requires session { IsSession s.now }
    ensures begins { IfOk result (λ start. (told : Option Held) (state : State) → StandsFor s.now told state → Begins s.now.schema.program state path.now (spot_of_start start)) }
    ensures there { IfOk result (λ start. (heap : Heap) → IsHeapOf s.now.schema.program s.now.schema.layouts s.now.objects heap → IsStart s.now.schema.program heap start) }
    ensures refused { (why : Why) → result ≡ Err why → (told : Option Held) (state : State) → StandsFor s.now told state → RefusesStart s.now.schema.program state path.now why }
{
    if path.variable {
        return match s.vars.get(&path.name) {
            Some(addr) => Ok(Start::Object(addr)),
            None => Err(Why::Unbound),
        };
    }
    match s.schema.names.root(&path.name) {
        Some(place) => Ok(Start::Root(place as u32)),
        None => Err(Why::NoField),
    }
}

/// Leaves in `to` where a path leads, or says why it is refused.
pub fn reach<'a>(
    alloc: Global,
    s: &'a Session,
    path: &Route,
    to: &mut Reached<'a>,
) -> Result<(), WalkFail>
    requires session { IsSession s.now }
    ensures leads { OnOk result ((told : Option Held) (state : State) → StandsFor s.now told state → Leads s.now.schema.program state path.now (spot_of to.new)) }
    ensures ends { OnOk result ((heap : Heap) → IsHeapOf s.now.schema.program s.now.schema.layouts s.now.objects heap → IsEndAt s.now.schema.program s.now.schema.layouts s.now.objects heap (spot_of to.new) to.new.end) }
    ensures first { OnOk result ((heap : Heap) → IsHeapOf s.now.schema.program s.now.schema.layouts s.now.objects heap → IsFirstIn s.now.schema.program s.now.schema.layouts s.now.objects heap to.new) }
    ensures inside { OnOk result (EndsInFirst s.now.schema.program s.now.schema.layouts s.now.objects to.new) }
    ensures refused { (why : Why) → result ≡ Err (Refused why) → (told : Option Held) (state : State) → StandsFor s.now told state → RefusesPath s.now.schema.program state path.now why }
{
    match start_of(s, path) {
        Ok(start) => walk(alloc, &s.schema, &s.objects, start, &path.steps, to),
        Err(why) => Err(WalkFail::Refused(why)),
    }
}
