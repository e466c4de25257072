//! What follows from the definitions of the typed-object machine: that a path ends once, that a refusal changes nothing, and that a
//! command has at most one answer, and with it one next state. The calls of [`laws`] do nothing; the layer above cites their clauses.
#![tactic(auto)]

pub mod laws;

pub use laws::{
    answers_are_there, good_states_stay_good, opening_is_good, paths_end_once,
    refusals_change_nothing, steps_are_one,
};
