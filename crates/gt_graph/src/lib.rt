//! The typed heap without bytes: objects under names, the values of the roots, cache pairs, and where the objects lie. These are
//! definitions alone, for the heap that holds values of every type; no contract cites them yet.
#![tactic(auto)]
