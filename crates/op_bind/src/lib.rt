//! Binds (RFC 4511 4.2): which stored passwords accept a password, and what a bind comes to over a tree.
#![tactic(auto)]

mod binds;
mod entry;
pub mod laws;
mod passwords;

pub use binds::{Bound, NoMemory, bind, bind_with_password};
pub use passwords::accepts;
