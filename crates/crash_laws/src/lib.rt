//! The laws of crashes: what a server that keeps its changes in a file leaves in it, what a crash keeps of that, and what a
//! start makes of it again.
#![tactic(auto)]

pub mod laws;
