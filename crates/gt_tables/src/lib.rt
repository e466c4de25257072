//! The walker tables of a program: a walk for each kind of block, for each root that is not deletable, and for the structures that lie in others, where equal rows are one
//! walk. It has a row for each pointer and each part that has one. The layer above asks for all of them with [`build`], and visits them with `gt_walk`.
#![tactic(auto)]

mod blocks;
mod building;
mod caches;
mod chains;
mod deletable;
mod expressions;
mod forms;
pub mod laws;
mod naming;
mod parts;
mod paths;
mod pointers;
mod roots;
mod rows;
mod sizes;
mod sources;

pub use building::build;
