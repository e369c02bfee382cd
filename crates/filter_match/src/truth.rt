//! The three truth values of filters.

/// What a filter is of an entry (RFC 4511 4.5.1.7).
#[derive(Clone, Copy, Debug, PartialEq, Eq)]
pub enum Truth {
    /// The entry matches.
    True,
    /// The entry does not match.
    False,
    /// Neither can be told.
    Undefined,
}
