//! What a change does.

/// What a change does with values of an attribute type (RFC 4511 4.6).
#[derive(Clone, Copy, PartialEq, Eq, Debug, Drop)]
pub enum ChangeKind {
    /// They come beside those that are there.
    Add,
    /// They go; where none is given, the attribute goes.
    Delete,
    /// They take the place of all that are there; where none is given, the attribute goes.
    Replace,
}
