//! The laws of progress: whoever takes what a server sends has all its replies whenever the server waits for an event.
#![tactic(auto)]

pub mod laws;
