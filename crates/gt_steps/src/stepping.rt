// One command of the machine.
ghost use Rattle.std.specs.Prelude.{◌≡◌, IfOk, OnErr};
ghost use Rattle.gt_io.specs.Held.{Held};
ghost use Rattle.gt_next.specs.States.{State};
ghost use Rattle.gt_next.specs.Next.{Next};
ghost use Rattle.gt_session.specs.Sessions.{Goes, IsAsBefore, IsSession, KeepsBytes, StandsFor};
ghost use Rattle.gt_next.specs.Laws.{IsBuilt};

use crate::collecting::{collect, collect_force};
use crate::reporting::{heap, stats, tables};
use gt_asking::{get, print, set, unbind};
use gt_caching::{find, put};
use gt_io::Files;
use gt_making::{make_array, make_block, make_single, make_string};
use gt_next::Answer;
use gt_script::{Command, Line};
use gt_session::Session;
use std::alloc::{AllocError, Global};

/// Answers one command that is built, as `is_built` tells. If memory runs out, nothing changed. The session has to stand for a state:
/// that of `Session::open` does, and each step leaves it so.
pub fn step<F: Files>(
    alloc: Global,
    s: &mut Session,
    files: &mut F,
    line: &Line,
) -> Result<Answer, AllocError>
    requires session { IsSession s.old }
    requires built { IsBuilt line.now.command }
    ensures next { IfOk result (λ answer. (state : State) → StandsFor s.old (F.told files.old) state
        → (t : State) × Next s.old.schema.program s.old.schema.layouts state line.now.command answer t × StandsFor s.new (F.told files.new) t) }

    // A refusal leaves the bytes as they were, too.
    ensures refused { IfOk result (λ answer. KeepsBytes answer s.old s.new) }
    ensures unchanged { OnErr result (IsAsBefore s.old s.new) }
    ensures space { OnErr result (s.new.objects.space ≡ s.old.objects.space) }
    ensures session { IsSession s.new }
    ensures schema { s.new.schema ≡ s.old.schema }
    ensures files { files.new ≡ files.old }
{
    answer(alloc, s, &line.command)
}

// Answers a command that is built; files are as they were.
fn answer(alloc: Global, s: &mut Session, command: &Command) -> Result<Answer, AllocError>
    requires session { IsSession s.old }
    requires built { IsBuilt command.now }
    ensures next { IfOk result (Goes (λ state answer t. Next s.old.schema.program s.old.schema.layouts state command.now answer t) s.old s.new) }
    ensures refused { IfOk result (λ answer. KeepsBytes answer s.old s.new) }
    ensures unchanged { OnErr result (IsAsBefore s.old s.new) }
    ensures space { OnErr result (s.new.objects.space ≡ s.old.objects.space) }
    ensures schema { s.new.schema ≡ s.old.schema }
{
    match command {
        Command::New { var, ty, n } => make_single(alloc, s, var, ty, *n),
        Command::Array { var, ty, n } => make_array(s, var, ty, *n),
        Command::Text { var, text } => make_string(s, var, text.as_slice()),
        Command::Block { var, n } => make_block(s, var, *n),
        Command::Set { path, value } => set(alloc, s, path, value),
        Command::Get { var, path } => get(alloc, s, var, path),
        Command::Drop { var } => Ok(unbind(s, var)),
        Command::Print { path } => print(alloc, s, path),
        Command::Put { cache, key, value } => put(s, cache, key, value),
        Command::Find { cache, key } => Ok(find(s, cache, key)),
        Command::Collect => Ok(collect(s)),
        Command::CollectForce => Ok(collect_force(s)),
        Command::Heap => heap(alloc, s),
        Command::Stats => Ok(stats(s)),
        Command::Tables => tables(alloc, s),
        Command::Save { .. } | Command::Load { .. } => unreachable!(),
    }
}
