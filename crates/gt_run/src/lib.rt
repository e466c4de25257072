//! The program as one call: arguments, files and a sink go in, and what comes out is a run of the typed-object machine.
//! The layer above uses `top`, or `run_here`, which hands it what the machine has.
#![tactic(auto)]

mod built;
mod ending;
mod host;
pub mod laws;
mod opening;
mod outcome;
mod refuse;
mod running;

pub use gt_answers::Answers;
pub use gt_front::{FileWhy, Refusal};
pub use gt_next::{Answer, Why};
pub use host::run_here;
pub use laws::{numbers, one_refusal};
pub use outcome::Outcome;
pub use running::top;
