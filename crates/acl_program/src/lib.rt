//! The program: what its words ask for, done over any shelf of files, any sink for what it prints and
//! any link to its connections.
#![tactic(auto)]

mod asking;
mod connection;
mod data;
mod decisions;
mod help;
mod outside;
mod printing;
mod program;
mod replay;
mod rights_table;
mod sample;
mod serve;
mod status;
mod storing;
mod troubles;
mod verifying;
mod why;

pub use outside::Outside;
pub use program::run;
pub use status::Status;
