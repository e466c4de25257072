//! The collection of a heap: where it has grown to the threshold of a mode, the objects that its roots and the pairs that stay reach are
//! kept, and the others are freed. It marks first, and then ends; both are calls of their own.
#![tactic(auto)]

mod clearing;
mod collecting;
mod finishing;
mod modes;

pub use collecting::{CollectAnswer, Collected, collect, keep_marks};
pub use finishing::{Finished, finish};
pub use gt_reach::mark_kept;
pub use modes::Mode;
