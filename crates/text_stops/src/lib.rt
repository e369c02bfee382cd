//! Where reading the text of an access control item or of a subtree specification stops, and the word that stands in its
//! way: for texts that are refused.
#![tactic(auto)]

mod reading;
mod rows;
mod spots;
mod standing;
mod stops;
mod words;

pub use stops::{NoMemory, item_stop, subtree_stop};
pub use words::{put_shown, put_word};
