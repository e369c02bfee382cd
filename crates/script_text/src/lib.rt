//! Script files: lines that open connections, send octets on them and end them.
#![tactic(auto)]

mod event;
pub mod laws;
mod lines;
mod reading;
mod recording;
mod script;
mod words;

pub use event::{ScriptEvent, ScriptFault};
pub use hex;
pub use plain_values;
pub use recording::{EventKind, Head, Recording};
pub use script::read_script;
