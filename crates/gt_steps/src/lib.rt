//! One command of the machine over a session.
#![tactic(auto)]

mod built;
mod collecting;
mod reporting;
mod stepping;

pub use built::is_built;
pub use collecting::{collect, collect_force};
pub use reporting::{heap, stats, tables};
pub use stepping::step;
