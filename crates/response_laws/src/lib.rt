//! The laws of responses: each request that is read is answered by one response of its kind, behind the entries of a search.
#![tactic(auto)]

pub mod laws;
