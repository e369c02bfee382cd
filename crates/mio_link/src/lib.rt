//! The link of the system's TCP sockets (RFC 9293), over one poll for all of them, with a file of the system
//! as its store. It tells nothing of what it did: what a socket delivers and a disk keeps is the system's.
#![tactic(auto)]

mod bits;
mod connection;
mod connections;
pub mod laws;
mod link;
mod moment;
mod ready;
mod server;
mod sockets;
mod store;
mod turns;

pub use link::MioLink;
