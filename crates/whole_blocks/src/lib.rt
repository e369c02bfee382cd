//! Texts of blocks, each of lines with an empty line behind them, and how much of a text that may be torn is whole.
#![tactic(auto)]

pub mod laws;
mod whole;

pub use whole::whole_length;
