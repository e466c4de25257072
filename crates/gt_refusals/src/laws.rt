//! What follows from the words of the contracts. The call does nothing: its clauses are laws.
ghost use Rattle.std.specs.Prelude.{◌≡◌};
ghost use Rattle.gt_types.specs.declared.program.Program.{Program};
ghost use Rattle.gt_layout.specs.declared.planes.Layouts.{Layouts};
ghost use Rattle.gt_script.specs.declared.command.Command.{Command};
ghost use Rattle.gt_next.specs.declared.answer.Answer.TheVariants.{Refused};
ghost use Rattle.gt_next.specs.declared.answer.Why.{Why};
ghost use Rattle.gt_next.specs.States.{State, IsGoodState};
ghost use Rattle.gt_next.specs.Next.{Next};
ghost use Rattle.gt_next.specs.Laws.{IsRead};
ghost use Rattle.gt_refusals.specs.Refusals.{refusals_of, IsFirstOf};

use gt_determined::paths_end_once;

/// A command is refused for the first cause in its row of `refusals` that is there, and a refusal changes nothing. From a good state
/// the machine may answer the refusal of the first cause that is there, and then, as `steps_are_one` of `gt_determined` says, it gives no
/// other answer.
pub fn refusals_in_order()
    ensures first { (program : Program) (layouts : Layouts) (s t : State) (command : Command) (why : Why) → Next program layouts s command (Refused why) t → IsFirstOf program layouts s command (refusals_of command) why }
    ensures answered { (program : Program) (layouts : Layouts) (s : State) (command : Command) (why : Why) → IsRead program layouts → IsGoodState program layouts s → IsFirstOf program layouts s command (refusals_of command) why → Next program layouts s command (Refused why) s }
    ensures unchanged { (program : Program) (layouts : Layouts) (s t : State) (command : Command) (why : Why) → Next program layouts s command (Refused why) t → t ≡ s }
{
    paths_end_once();
}
