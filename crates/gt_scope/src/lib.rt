//! What each name means over all headers: declarations in the order of the texts, tags, constants, and typedefs, which are followed.
//! The layer above makes the draft by it, and looks for second definitions.
#![tactic(auto)]

mod constants;
mod copies;
mod declaration;
mod declaring;
mod kinds;
mod link;
mod meaning;
mod plain;
mod scope;
mod spelling;
mod targets;
mod typedefs;
mod types;

pub use declaration::{Declaration, What};
pub use meaning::TypedefMeaning;
pub use scope::{Scope, scope_of, with_stars};
pub use spelling::spelling_of;
pub use types::Spelled;
