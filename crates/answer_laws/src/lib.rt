//! The laws of completeness: a search, a compare and a change that are granted are done, and a message with one is answered
//! by octets that say so.
#![tactic(auto)]

pub mod laws;
