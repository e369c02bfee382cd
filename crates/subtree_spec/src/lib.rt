//! Subtree specifications (RFC 3672): read from text, and which names belong to a subtree.
#![tactic(auto)]

mod error;
mod exclusions;
pub mod laws;
mod membership;
mod parts;
mod printing;
mod reading;
mod refinements;
mod spec;

pub use error::BadText;
pub use membership::{holds_below, holds_name};
pub use parts::{is_oid, name, oid};
pub use printing::print;
pub use reading::{read, subtree};
pub use spec::{Refinement, Spec};
