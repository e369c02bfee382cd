//! The laws of twins: two trees that differ alone in a subtree that a requester does not see are read alike
//! by it.
#![tactic(auto)]

pub mod laws;
