//! The laws of pages: they join to the answer that they are cut from, and of twins they are the same.
#![tactic(auto)]

pub mod laws;
