//! A watch over a replay: the part of a leak audit that replays the events of all connections over a directory, and tells what
//! breaks the hush of a subtree for one of them first.
#![tactic(auto)]

mod finding;
mod next_message;
mod watch;
mod watched;

pub use event_replay;
pub use finding::find_fault;
pub use hush_laws;
