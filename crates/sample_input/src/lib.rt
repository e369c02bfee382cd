//! The sample: a data file of persons, half of whom access control hides, and one connection that searches for each of
//! them; and how the replies to it are counted.
#![tactic(auto)]

mod counting;
mod events;
mod file;

pub use counting::{Found, count_found};
pub use events::sample_events;
pub use file::sample_file;
