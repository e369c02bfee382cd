//! A client's text: requests written as records are read as messages, replies are printed, and the script that sends the
//! requests is written.
#![tactic(auto)]

mod asking;
mod changes;
mod checking;
mod filters;
pub mod laws;
mod limits;
mod picking;
mod replies;
mod requests;
mod rows;
mod scripts;
mod types;
mod words;

pub use asking::read_asks;
pub use filter_text;
pub use ldap_msg;
pub use ldif_records;
pub use replies::{put_replies_text, put_reply_text};
pub use script_text;
pub use scripts::{ask_events, put_ask_script};
pub use types::{AskFault, Asked, NoMemory};
