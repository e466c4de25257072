//! The plain notation of a program, a line for each structure, field, chain, root, cache and type word, for the tables of rows
//! that give programs to a layer. No contract is stated: a row that is read wrongly differs from its answer.
//!
//! A structure or a root is found by its name, the first that has it. A name that none has is read as the place after the last
//! one, so that rows can name what is not there.
//!
//!     struct NAME DESC | union NAME DESC             DESC is an expression or -
//!     field NAME TYPE ACT                            ACT is always, tag N, default or never
//!     chain KIND PATH                                KIND is next, prev or circular; PATH is names with dots between
//!     root NAME TYPE [deletable]
//!     cache NAME KEY VALUE
//!     word NAME node STRUCT | word NAME ptr STRUCT   a typedef of a structure, or of a pointer to one
//!     times N LINE [ | LINE]..                       the lines N times, where $ is the number from 1, and ~ the next number
//!
//! A TYPE is b, i1, u1 to i8, u8; bits UNIT N; raw SIZE ALIGN; str; strlen EXPR; ptr NAME; len EXPR node NAME, ptr NAME or str;
//! atomic; undef; node NAME DESC; arr N TYPE; tail EXPR TYPE; and reorder before a pointer. An EXPR is an integer, a path as
//! `%h.a.b`, a root as `@name`, or an operator before its operands in round brackets, as `(+ a b)`, `(- a)` and `(? a b c)`.
#![tactic(auto)]

mod expressions;
mod line;
mod reading;
mod refusal;
mod repeated;
mod types;

pub use reading::{expression_of, program, type_of};
pub use refusal::Refusal;
pub use repeated::add_repeated;
