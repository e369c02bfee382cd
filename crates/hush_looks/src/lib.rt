//! What an audit looks at at one place of a replay, and why most places need no look: only a change of entries, and a bind of
//! the connection's own, may change what a place shows.
#![tactic(auto)]

mod due;
pub mod laws;
mod looks;

pub use due::is_due;
pub use hush_laws;
pub use looks::look;
