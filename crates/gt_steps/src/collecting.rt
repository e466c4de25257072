// The commands `collect` and `collect force`.
ghost use Rattle.std.specs.Prelude.{◌≡◌, Option};
ghost use Rattle.gt_io.specs.Held.{Held};
ghost use Rattle.gt_next.specs.States.{State};
ghost use Rattle.gt_next.specs.Collecting.{NextCollect, NextForce, threshold};
ghost use Rattle.gt_session.specs.Sessions.{Goes, IsSession, KeepsBytes, StandsFor};
ghost use Rattle.gt_collect.specs.Modes.{IsMode, threshold_in};
ghost use Rattle.gt_steps.specs.Collecting.{NextIn};

use gt_collect::{CollectAnswer, Mode, collect as collect_heap};
use gt_next::Answer;
use gt_session::Session;

/// Frees the objects that are not kept, drops the pairs of caches that do not stay, makes the pointers of deletable roots null, and unbinds
/// the variables of freed objects. It takes no memory.
pub fn collect_force(s: &mut Session) -> Answer
    requires session { IsSession s.old }
    ensures next { Goes (λ state answer t. NextForce s.old.schema.program state answer t) s.old s.new result }
    ensures refused { KeepsBytes result s.old s.new }
    ensures schema { s.new.schema ≡ s.old.schema }
{
    collect_in(s, Mode::Force)
}

/// Collects where the heap has grown to the threshold, and else changes nothing. It takes no memory.
pub fn collect(s: &mut Session) -> Answer
    requires session { IsSession s.old }
    ensures next { Goes (λ state answer t. NextCollect s.old.schema.program state answer t) s.old s.new result }
    ensures refused { KeepsBytes result s.old s.new }
    ensures schema { s.new.schema ≡ s.old.schema }
{
    let mode = heuristic(s);
    collect_in(s, mode)
}

/// The mode of the command `collect`: the settings of the session, and the bytes after its last collection.
pub(crate) fn heuristic(s: &Session) -> Mode
    requires session { IsSession s.now }
    ensures mode { IsMode result }
    ensures threshold { (told : Option Held) (state : State) → StandsFor s.now told state → threshold_in result ≡ threshold state }
{
    Mode::Heuristic {
        last: s.last,
        min_expand: s.min_expand,
        min_heapsize: s.min_heapsize,
    }
}

// Collects in this mode, or skips, and answers which. After a collection the variables of freed objects are bound no more.
fn collect_in(s: &mut Session, mode: Mode) -> Answer
    requires session { IsSession s.old }
    requires mode { IsMode mode }
    ensures next { Goes (λ state answer t. NextIn s.old.schema.program mode state answer t) s.old s.new result }
    ensures refused { KeepsBytes result s.old s.new }
    ensures schema { s.new.schema ≡ s.old.schema }
{
    match collect_heap(&s.schema, &mut s.objects, &mut s.caches, mode) {
        CollectAnswer::Skipped => Answer::Skipped,
        CollectAnswer::Collected(done) => {
            s.vars.keep(&s.objects);
            s.last = s.objects.allocated();
            s.rounds = done.rounds;
            Answer::Collected {
                kept: done.kept,
                freed: done.freed,
                dropped: done.dropped,
            }
        }
    }
}
