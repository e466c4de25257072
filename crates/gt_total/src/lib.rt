//! What follows from the definitions of the typed-object machine: that each command has an answer, that good states stay good, and that
//! answers fix the last state of a run. The calls of [`laws`] do nothing; a layer above cites their clauses.
#![tactic(auto)]

pub mod laws;

pub use laws::{answers_are_there, good_states_stay_good, runs_are_one};
