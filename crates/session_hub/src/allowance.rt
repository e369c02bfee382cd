//! What a connection is allowed when it hears a piece.

use crate::Terms;

/// What a connection is allowed when it hears a piece.
#[derive(Clone, Copy, Debug)]
pub struct Allowance {
    pub terms: Terms,
    /// How many octets may wait for it before a further message is answered.
    pub room: usize,
}
