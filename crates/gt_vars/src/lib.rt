//! The variables of a script.
#![tactic(auto)]

mod vars;

pub use vars::Vars;
