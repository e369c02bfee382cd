//! The hub of all sessions (RFC 4511 5): it hears what connections send, and answers each message.
#![tactic(auto)]

mod alike;
mod allowance;
mod binds;
mod block;
mod bounds;
mod connection;
mod controls;
mod ended;
mod event;
mod extended;
mod hub;
pub mod laws;
mod messages;
mod outgoing;
mod places;
mod requester;
mod results;
mod sent;
mod serve;
mod server;
mod serving;
mod simple;
mod spoken;
mod stream;
mod waiting;

pub use alike::{
    a_journal_serves_twins, other_sessions_do_not_show, runs_over_twins_are_alike,
    twins_are_answered_alike,
};
pub use bounds::{Bounds, Terms};
pub use ended::Ended;
pub use event::Event;
pub use hub::{Hub, MAX_CONNECTIONS};
pub use serve::{BUFFER_LENGTH, serve_loop};
pub use session_model;
