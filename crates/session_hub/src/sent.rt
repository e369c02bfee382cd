//! What the sending of a queue came to.

/// Why no more octets of a queue are sent.
#[derive(Clone, Copy, Debug)]
pub enum Sent {
    /// All of them were taken.
    All,
    /// The link takes no more now.
    Later,
    /// The connection was found lost.
    Gone,
}
