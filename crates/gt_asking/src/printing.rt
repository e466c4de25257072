// The command `print`.
ghost use Rattle.std.specs.Prelude.{◌≡◌, IfOk, Option, Some};
ghost use Rattle.gt_io.specs.Held.{Held};
ghost use Rattle.gt_show.specs.BlockTexts.{ShowsBlock};
ghost use Rattle.gt_graph.specs.Objects.{Object, object_of, blocks_of, elements_in};
ghost use Rattle.gt_graph.specs.Good.{Heap};
ghost use Rattle.gt_objects.specs.Holding.{IsHeapOf};
ghost use Rattle.gt_next.specs.States.{State};
ghost use Rattle.gt_next.specs.Spots.{Standing, standing_at};
ghost use Rattle.gt_next.specs.Next.{NextPrint, ShowsStanding};
ghost use Rattle.gt_routes.specs.Reaching.{spot_of, IsEndAt};
ghost use Rattle.gt_schema.specs.Schemas.{IsSchema};
ghost use Rattle.gt_session.specs.Sessions.{IsSession, StandsFor};

use crate::blocks::read_elements;
use crate::paths::reach;
use gt_elements::{Names, Owner};
use gt_next::Answer;
use gt_objects::Objects;
use gt_routes::{End, Reached, WalkFail};
use gt_schema::Schema;
use gt_script::Route;
use gt_session::Session;
use gt_show::{show, show_block};
use gt_types::Bytes;
use std::alloc::{AllocError, Global};

/// Shows what stands at the end of a path. If memory runs out, nothing changes.
pub fn print(alloc: Global, s: &Session, path: &Route) -> Result<Answer, AllocError>
    requires session { IsSession s.now }
    ensures next { IfOk result (λ answer. (told : Option Held) (state : State) → StandsFor s.now told state → NextPrint s.now.schema.program state path.now answer state) }
{
    let mut to = Reached::new(alloc);
    match reach(alloc, s, path, &mut to) {
        Ok(()) => {}
        Err(stop) => {
            drop(to);
            return match stop {
                WalkFail::Refused(why) => Ok(Answer::Refused(why)),
                WalkFail::Memory => Err(AllocError),
            };
        }
    }
    let text = show_end(alloc, &s.schema, &s.objects, &to)?;
    Ok(Answer::Shown(text))
}

// The text of the object at an address, as a whole.
fn show_object(
    alloc: Global,
    schema: &Schema,
    objects: &Objects,
    addr: u64,
) -> Result<Bytes, AllocError>
    requires schema { IsSchema schema.now }
    requires ready { (heap : Heap) × IsHeapOf schema.now.program schema.now.layouts objects.now heap }
    ensures shown { IfOk result (λ text. (heap : Heap) (o : Object) → IsHeapOf schema.now.program schema.now.layouts objects.now heap → object_of heap.graph.objects addr ≡ Some o
        → ShowsBlock schema.now.program (blocks_of heap.graph.objects) o.kind (elements_in o.value) text) }
{
    let names = Names::of(objects);
    let Some(known) = objects.known(addr) else {
        return Ok(Bytes::new(alloc));
    };
    let elements = read_elements(alloc, schema, objects, addr, known.count)?;
    show_block(
        alloc,
        &schema.program,
        &schema.layouts,
        known.kind,
        elements.as_slice(),
        &names,
    )
}

// The text of what stands where a path leads.
fn show_end(
    alloc: Global,
    schema: &Schema,
    objects: &Objects,
    to: &Reached<'_>,
) -> Result<Bytes, AllocError>
    requires schema { IsSchema schema.now }
    requires ready { (heap : Heap) × IsHeapOf schema.now.program schema.now.layouts objects.now heap }
    requires end { (heap : Heap) → IsHeapOf schema.now.program schema.now.layouts objects.now heap → IsEndAt schema.now.program schema.now.layouts objects.now heap (spot_of to.now) to.now.end }
    ensures shown { IfOk result (λ text. (heap : Heap) (what : Standing) → IsHeapOf schema.now.program schema.now.layouts objects.now heap → standing_at schema.now.program heap.graph (spot_of to.now) ≡ Some what
        → ShowsStanding schema.now.program heap.graph.objects what text) }
{
    let names = Names::of(objects);
    let cursor = match to.end {
        End::Object => {
            return match to.owner {
                Owner::Object(addr) => show_object(alloc, schema, objects, addr),
                Owner::Statics => Ok(Bytes::new(alloc)),
            };
        }
        End::Value(cursor) => cursor,
    };
    let value = cursor.read(alloc)?;
    show(
        alloc,
        &schema.program,
        &schema.layouts,
        cursor.ty(),
        &value,
        &names,
    )
}
