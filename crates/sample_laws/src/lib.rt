//! The law of samples: the data file of a sample loads, whatever the number of persons.
#![tactic(auto)]

pub mod laws;
