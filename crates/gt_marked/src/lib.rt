//! What the tokens of a marked item declare: markers and their options, types, fields, structures, globals and caches.
//! The layer above reads whole items, marked or not, with what is here of types and brackets.
#![tactic(auto)]

mod caches;
mod combinations;
mod declarators;
mod fields;
mod globals;
mod groups;
mod items;
pub mod laws;
mod markers;
mod options;
mod strings;
mod structures;
mod types;
mod unread;

pub use declarators::goes_on;
pub use groups::{depth_after, inside, kept_text};
pub use items::marked_item;
pub use laws::{field_rules, marked_rules, marker_rules, type_rules};
pub use structures::alias;
pub use types::{Context, base_type, without_qualifiers};
pub use unread::{Unread, unexpected_token};
