//! The session of a run: the schema, the objects, the caches, the variables and the numbers of the collector, and the state of the machine for which
//! they stand.
#![tactic(auto)]

mod session;

pub use session::Session;
