//! Tests of what is said of data files: where the text of a rule stops, where a refused file is at fault, and what may
//! surprise in a good one.
#![tactic(auto)]

#[cfg(test)]
mod advice;
#[cfg(test)]
mod faults;
#[cfg(test)]
mod stops;
