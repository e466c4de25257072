// What follows from the definitions, for callers to cite. The functions do nothing.
ghost use Rattle.gt_types.specs.declared.program.Program.{Program};
ghost use Rattle.gt_layout.specs.declared.planes.Layouts.{Layouts};
ghost use Rattle.gt_next.specs.Laws.{IsRead, RunIsOne, StaysGood};
ghost use Rattle.gt_total.specs.Answering.{SomeAnswer};

/// A good state stays good after each command, collections too.
pub fn good_states_stay_good()
    ensures { (program : Program) (layouts : Layouts) → IsRead program layouts → StaysGood program layouts }
{
    gt_determined::good_states_stay_good();
}

/// The answers of a run fix the state to which it leads, but for the rounds of the last collection.
pub fn runs_are_one()
    ensures { (program : Program) (layouts : Layouts) → IsRead program layouts → RunIsOne program layouts }
{
    good_states_stay_good();
    gt_determined::steps_are_one();
}

/// From a good state it cannot be that a command that is built has no answer.
pub fn answers_are_there()
    ensures { (program : Program) (layouts : Layouts) → IsRead program layouts → SomeAnswer program layouts }
{
    gt_determined::paths_end_once();
    gt_determined::answers_are_there();
    gt_held::plain_zeros_are_there();
}
