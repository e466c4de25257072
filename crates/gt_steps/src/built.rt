// Which commands are built so far.
ghost use Rattle.std.specs.Bool.{Decides};
ghost use Rattle.gt_next.specs.Laws.{IsBuilt};

use gt_script::Command;

/// Whether `step` answers the command: all but `save` and `load`.
pub fn is_built(command: &Command) -> bool
    ensures built { Decides result (IsBuilt command.now) }
{
    match command {
        Command::New { .. } => true,
        Command::Array { .. } => true,
        Command::Text { .. } => true,
        Command::Block { .. } => true,
        Command::Set { .. } => true,
        Command::Get { .. } => true,
        Command::Drop { .. } => true,
        Command::Print { .. } => true,
        Command::Put { .. } => true,
        Command::Find { .. } => true,
        Command::Collect => true,
        Command::CollectForce => true,
        Command::Heap => true,
        Command::Stats => true,
        Command::Tables => true,
        Command::Save { .. } => false,
        Command::Load { .. } => false,
    }
}
