//! What an audit answers.

use crate::fault::Fault;

/// What an audit of a connection answers.
#[derive(Clone, Copy, Debug, PartialEq, Eq)]
pub struct Audited {
    /// What breaks the hush of the subtree first; None where nothing does.
    pub fault: Option<Fault>,
    /// After how many octets what the connection is sent differs from what its own events alone get it; None where it is the
    /// same.
    pub differs: Option<u64>,
}
