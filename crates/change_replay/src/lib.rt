//! Recorded changes, made again of the tree that they were accepted for: nobody is asked for permission, and what was
//! accepted is recovered.
#![tactic(auto)]

mod adds;
mod applying;
mod deletes;
mod everything;
mod fault;
pub mod laws;
mod making;
mod modifies;
mod names;
mod renames;
mod replay;
mod rules;

pub use acdf_filters::aci_item;
pub use change_laws;
pub use change_records;
pub use fault::ReplayFault;
pub use replay::apply_changes;
