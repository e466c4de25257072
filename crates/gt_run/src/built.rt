// Whether the commands of a script are built so far.
ghost use Rattle.std.specs.Prelude.{All, MatchBool};
ghost use Rattle.gt_next.specs.Laws.{IsBuilt};
ghost use Rattle.gt_run.specs.Comes.{HasUnbuilt};

use gt_script::Line;
use gt_steps::is_built;

/// Whether each of the lines has a command that is built.
pub fn are_built(lines: &[Line]) -> bool
    ensures { MatchBool result (All (λ line. IsBuilt line.command) lines.now) (HasUnbuilt lines.now) }
{
    for line in lines {
        if !is_built(&line.command) {
            return false;
        }
    }
    true
}
