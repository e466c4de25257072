// What follows from the definitions, for callers to cite. The functions do nothing.
ghost use Rattle.std.specs.Prelude.{ℕ, List};
ghost use Rattle.gt_types.specs.declared.program.Program.{Program};
ghost use Rattle.gt_layout.specs.declared.planes.Layouts.{Layouts};
ghost use Rattle.gt_script.specs.declared.command.Command.TheVariants as command;
ghost use Rattle.gt_next.specs.Laws.{AnswerIsOne, IsRead, OpeningIsGood, PathsEndOnce, RefusalsChangeNothing, StateIsOne};
ghost use Rattle.gt_determined.specs.Answering.{HasAnswer};
ghost use Rattle.gt_determined.specs.Staying.{StaysGoodUncollected};

use gt_show::shown_is_one;

/// A refusal changes nothing.
pub fn refusals_change_nothing()
    ensures { (program : Program) (layouts : Layouts) → IsRead program layouts → RefusalsChangeNothing program layouts }
{}

/// A path of a good state leads to one spot or has one refusal.
pub fn paths_end_once()
    ensures { (program : Program) (layouts : Layouts) → IsRead program layouts → PathsEndOnce program layouts }
{}

/// An opening state is good.
pub fn opening_is_good()
    ensures { (program : Program) (layouts : Layouts) → IsRead program layouts → OpeningIsGood program layouts }
{}

/// From a good state a command has at most one answer, but for the address of a new block, and with each answer one next state, but
/// for the rounds of a collection.
pub fn steps_are_one()
    ensures answers { (program : Program) (layouts : Layouts) → IsRead program layouts → AnswerIsOne program layouts }
    ensures states { (program : Program) (layouts : Layouts) → IsRead program layouts → StateIsOne program layouts }
{
    shown_is_one();
}

/// A good state stays good after each command that does not collect.
pub fn good_states_stay_good()
    ensures { (program : Program) (layouts : Layouts) → IsRead program layouts → StaysGoodUncollected program layouts }
{}

/// From a good state each of these commands has an answer.
pub fn answers_are_there()
    ensures drop { (program : Program) (layouts : Layouts) (var : List ℕ) → IsRead program layouts → HasAnswer program layouts (command.Drop var) }
    ensures put { (program : Program) (layouts : Layouts) (cache key value : List ℕ) → IsRead program layouts → HasAnswer program layouts (command.Put cache key value) }
    ensures find { (program : Program) (layouts : Layouts) (cache key : List ℕ) → IsRead program layouts → HasAnswer program layouts (command.Find cache key) }
    ensures heap { (program : Program) (layouts : Layouts) → IsRead program layouts → HasAnswer program layouts command.Heap }
    ensures stats { (program : Program) (layouts : Layouts) → IsRead program layouts → HasAnswer program layouts command.Stats }
{}
