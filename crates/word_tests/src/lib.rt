//! Tests of the words of the command line: which command they are, and what it asks for.
#![tactic(auto)]

#[cfg(test)]
mod commands;
