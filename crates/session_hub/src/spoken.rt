//! How far a stream was answered.

/// How the answers to a stream's messages ended.
#[derive(Clone, Copy, Debug)]
pub enum SpeechEnd {
    /// Less than a message is left, and the connection stays open.
    StaysOpen,
    /// A message or the notice of disconnection closed the connection.
    Closes,
    /// There was no memory for the next answer, which closes the connection.
    IsCut,
    /// More waits for the connection than it has room for, and a message is left, which closes the connection.
    IsFull,
}

/// How many octets of a stream were read, how many messages were answered, and how that ended.
#[derive(Clone, Copy, Debug)]
pub struct Spoken {
    pub read: usize,
    pub answered: u64,
    pub end: SpeechEnd,
}
