//! Whether two things of a program are equal: expressions, types, fields, structures, roots and whole programs.
#![tactic(auto)]

mod expressions;
mod lists;
mod programs;
mod same;
mod types;

pub use same::Same;

#[cfg(test)]
mod tests;
