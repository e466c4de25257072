//! The canonical text of a program, and its fingerprint. `canon` is the text (docs/IMAGE.md) and `fingerprint` its SHA-256, for
//! any program. The layer above may rely on this law: programs which headers can declare have the same structures, roots and
//! caches where their texts are the same (`laws`). The calls that add words, names and paths serve other texts of programs too.
#![tactic(auto)]

mod canonical;
mod expressions;
pub mod laws;
mod lines;
mod names;
mod structures;
mod types;

pub use canonical::{canon, fingerprint};
pub use lines::{push_integer, push_number, push_word};
pub use structures::{push_named, push_path};
pub use types::push_structure;
