//! What a program asks of the outside: files on a shelf, octets put to a sink, connections of a
//! link. Each is a trait whose clauses say when a fault may come and, where the other side tells,
//! what it holds or did. Each has a form in memory; shelves and sinks have a real one too, and links
//! have none yet.
#![tactic(auto)]

mod answers;
mod copying;
mod file_shelf;
mod journal;
pub mod laws;
mod link;
mod listed;
mod log;
mod memory_shelf;
mod memory_sink;
mod peers;
mod reading;
mod rising;
mod script;
mod script_link;
mod shelf;
mod sink;
mod standard_sink;
mod tracked_journal;
mod writing;

pub use answers::{FetchFault, Heard, NextFault, NoMemory, PutFault, ReadFault, Took};
pub use file_shelf::FileShelf;
pub use journal::{Event, Item};
pub use link::Link;
pub use memory_shelf::MemShelf;
pub use memory_sink::MemSink;
pub use plain_values;
pub use reading::read_all;
pub use script_link::ScriptLink;
pub use script_text;
pub use script_text::{ScriptEvent, ScriptFault, hex};
pub use shelf::Shelf;
pub use sink::Sink;
pub use standard_sink::StdSink;
pub use writing::write_all;
