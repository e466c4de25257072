// The command `drop`.
ghost use Rattle.std.specs.Prelude.{◌≡◌};
ghost use Rattle.gt_next.specs.Next.{NextDrop};
ghost use Rattle.gt_session.specs.Sessions.{Goes, IsSession, KeepsBytes};

use gt_next::{Answer, Why};
use gt_session::Session;
use gt_types::Word;

/// Unbinds a variable.
pub fn unbind(s: &mut Session, var: &Word) -> Answer
    requires session { IsSession s.old }
    ensures next { Goes (λ state answer t. NextDrop state var.now answer t) s.old s.new result }
    ensures refused { KeepsBytes result s.old s.new }
    ensures schema { s.new.schema ≡ s.old.schema }
{
    match s.vars.get(var) {
        Some(_) => {
            s.vars.unbind(var);
            Answer::Done
        }
        None => Answer::Refused(Why::Unbound),
    }
}
