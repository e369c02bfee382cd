//! What a hub hears.

/// An event of a connection, by its number.
#[derive(Clone, Copy, Debug)]
pub enum Event<'a> {
    /// The connection was opened.
    Opened(u32),
    /// These octets came.
    Bytes(u32, &'a [u8]),
    /// The peer sends no more.
    Ended(u32),
}
