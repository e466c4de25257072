//! The types that every layer of gtyheap speaks of: texts, bytes and lists, the resolved program of the headers,
//! the expressions of its options, and the faults of a header. It stands on nothing of ours.
#![tactic(auto)]

mod bytes;
mod copied;
mod evaluation;
mod expressions;
mod faults;
mod limits;
mod list;
mod program;
mod reader;
mod types;
mod word;

pub use bytes::Bytes;
pub use copied::Copied;
pub use evaluation::eval;
pub use expressions::{Base, Expr, Op};
pub use faults::{Fault, Stop};
pub use limits::{
    MAX_BOUND, MAX_CACHES, MAX_DEPTH, MAX_DIMENSIONS, MAX_FIELDS, MAX_HEADERS, MAX_MIN_EXPAND,
    MAX_MIN_HEAPSIZE, MAX_ROOTS, MAX_STRUCTURES, TOO_LARGE,
};
pub use list::List;
pub use program::{Active, Cache, Chain, ChainKind, Field, Program, Root, Structure, Typedef};
pub use reader::Reader;
pub use sqlite_items::Boxed;
pub use types::{PtrKind, Scalar, Target, Ty, TypeId, Width};
pub use word::Word;
