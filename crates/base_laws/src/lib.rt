//! General laws of tests, orderings and lists that more than one crate needs, beside those of std.
#![tactic(auto)]

pub mod laws;
