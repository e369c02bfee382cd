//! Events of a script as they are played: all of them, those of one connection alone, and what that connection is sent.
#![tactic(auto)]

mod events;
pub mod laws;
mod own;
mod played;
mod sent;
mod tree_copy;

pub use aci_index;
pub use own::own_events;
pub use played::played_events;
pub use sent::sent_to;
pub use session_hub;
pub use tree_copy::copied_tree;
