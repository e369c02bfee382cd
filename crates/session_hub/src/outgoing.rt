//! Octets that go out.

/// Octets that go out, to which answers append: replies to a connection, and changes to the store.
#[derive(Drop)]
pub struct Outgoing {
    pub replies: Vec<u8>,
    pub changes: Vec<u8>,
}
