//! The laws of loading again: a directory whose entries load again keeps to that, whatever is changed and whoever asks.
#![tactic(auto)]

pub mod laws;
