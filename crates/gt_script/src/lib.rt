//! The scripts of gtyheap: what a line of a script says, as types, and the reader of the script language. The layer above
//! runs the lines that `parse_script` gives, and shows why a script is not read.
#![tactic(auto)]

mod command;
mod copies;
mod heap_forms;
pub mod laws;
mod naming;
mod parsing;
mod place_forms;
mod routes;
mod source;
mod statements;
mod steps;
mod stop;
mod variable_forms;

pub use command::{Command, Given, Hop, Line, Route, TypeName};
pub use gt_split::Number;
pub use laws::{
    lines_are_of_bytes, lines_as_spelled, one_outcome, steps_as_spelled, words_as_spelled,
};
pub use parsing::parse_script;
pub use steps::{Hops, Steps};
pub use stop::{MAX_COMMANDS, ScriptStop};
