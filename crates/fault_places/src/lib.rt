//! Where in a refused data file the fault is: the line, the attribute, its value, and the octet of a rule's text at which
//! reading stops, with the word in the way.
#![tactic(auto)]

mod classes;
mod entries;
pub mod laws;
mod lines;
mod making;
mod names;
mod refusal;
mod saying;
mod superclasses;
mod values;

pub use refusal::why_refused;
pub use saying::NoMemory;
