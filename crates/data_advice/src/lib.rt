//! What may surprise the operator of a good data file: names that no entry has, subtrees that hold nothing, passwords that
//! accept nothing, and entries in no administrative area.
#![tactic(auto)]

mod entries;
mod items;
mod notes;
mod noting;
mod passwords;
mod points;
mod subtrees;

pub use notes::advice;
pub use noting::NoMemory;
