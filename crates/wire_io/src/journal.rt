//! The items of a journal, in which a link tells what it did.

use plain_values::{Octets, Text};

/// An event that was heard, with its octets.
#[derive(Debug, Drop, PartialEq)]
pub enum Event {
    /// The connection was opened.
    Opened(u32),
    /// The octets came on the connection.
    Bytes(u32, Octets),
    /// The peer ended the connection.
    Ended(u32),
    /// The connection, which was on hold, may take octets again.
    Ready(u32),
    /// Nothing happened for a while.
    Idle,
    /// No further event comes.
    Stop,
}

/// One thing that a link did, with its arguments and its answer.
#[derive(Debug, Drop, PartialEq)]
pub enum Item {
    /// The event was given.
    Heard(Event),
    /// The link was to open at the address for so many sessions, and did (true) or failed.
    OpenedAt(Text, u64, bool),
    /// The octets were taken for the connection.
    Taken(u32, Octets),
    /// Nothing was taken for the connection now.
    Later(u32),
    /// The connection was found lost.
    Gone(u32),
    /// The connection was put on hold.
    Held(u32),
    /// The connection was released from its hold.
    Released(u32),
    /// The connection was hung up.
    HungUp(u32),
    /// The store of this name was to be opened, and was (true) or failed.
    StoreOpened(Text, bool),
    /// The store was cut to so many octets.
    StoreCut(u64),
    /// The octets were appended to the store.
    Stored(Octets),
}
