//! Administrative areas (X.501 14.3 and 18.3), and the access control subentries that are in force for an entry.
#![tactic(auto)]

pub mod laws;
mod membership;
mod point_list;
mod refinements;
mod roles;
mod subentries;
mod subtrees;
mod upwards;

pub use membership::holds;
pub use point_list::areas;
pub use roles::{is_inner_point, is_specific_point};
pub use subentries::{in_force, in_force_by, in_force_for};
pub use subtrees::{AccessSubentry, access_subtrees, subtree};
