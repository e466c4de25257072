//! What the names in a script mean in a program: types, roots and caches. An index is made once, and each name is then found in constant
//! time.
#![tactic(auto)]

mod index;
mod meaning;
mod named;

pub use index::ProgramNames;
