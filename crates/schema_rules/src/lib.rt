//! The rules that an entry of the directory keeps in its place.
#![tactic(auto)]

mod broken;
mod check;
mod classes;
mod contents;
pub mod laws;
mod limits;
mod listed;
mod marks;
mod old;
mod own;
mod points;
mod rules;
mod structural;
mod values;

pub use aci_item::EntryRule;
pub use broken::{Broken, NoMemory};
pub use check::{check_entry, check_entry_below};
