//! What headers declare, with what is made once of it, so that each name and each type is found in constant time.
#![tactic(auto)]

mod schema;

pub use schema::Schema;
