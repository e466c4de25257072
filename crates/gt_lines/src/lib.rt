//! The lines of a script, one after another: each is answered by the machine, and its text is written. The layer above uses
//! `run_script`.
#![tactic(auto)]

mod lines;
mod scripts;

pub use lines::{LineStop, LinesEnd, run_line, run_lines};
pub use scripts::run_script;
