//! The words of the program: which command they ask for, read with clap.
#![tactic(auto)]

mod address;
mod command;
pub mod laws;
mod number;
mod parser;
mod table;

pub use command::{
    Asking, Command, Deciding, Loading, Replaying, RightsAsked, Serving, Verifying, read_words,
};
