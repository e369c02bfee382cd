//! The laws of changes: a good tree stays good, and exactly a change that nothing refuses is made.
#![tactic(auto)]

pub mod laws;

pub use op_add_delete;
pub use op_modify;
