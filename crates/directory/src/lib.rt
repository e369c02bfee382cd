//! Directories, and what all operations on one ask and answer alike, over any that takes decisions: a requester's
//! permissions for the entry of a name, what is told in place of what may not be known (X.511 7.11), names as texts, and
//! results.
#![tactic(auto)]

mod asking;
mod dir;
mod entries;
mod hiding;
mod nearest;
mod newcomer;
mod results;
mod targets;
mod texts;

pub use asking::{Asking, Target};
pub use dir::{Addition, Dir};
pub use entries::{NumberedEntry, find_entry, is_suffix};
pub use hiding::{absent, hidden, no_such_object};
pub use newcomer::Newcomer;
pub use results::{result_of, result_with};
pub use targets::not_leaf;
pub use texts::{copied, printed, read_named};
pub use value_index;
