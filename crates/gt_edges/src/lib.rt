//! What the walks of a program are, and the law that on bytes that stand for a value they give the edges of that value. The call of
//! [`walks_give_edges`] does nothing; a layer above cites its clauses.
#![tactic(auto)]

pub mod laws;

pub use laws::walks_give_edges;
