//! The text of a type.

ghost use Rattle.std.specs.Prelude.{◌≡◌, IfOk};

use smallvec::SmallVec;
use std::alloc::{AllocError, Global};
use std::marker::Model;

// The most octets of a short text: the names of the table's types have no more.
const ROOM: usize = 24;

/// The text of a type, as it is written. Contracts see it as the list of its octets. A short one, as that of nearly every
/// line, takes no memory beside its own.
#[derive(Debug, Drop)]
pub struct KindText {
    octets: SmallVec<u8, ROOM>,
}

impl Model for KindText {
    ghost use Rattle.std.specs.Prelude.{List, ℕ};

    ghost Value = { List ℕ };

    ghost view = { λ text. text.octets.items };
}

impl KindText {
    /// The text of these octets. The error comes where a long one gets no memory.
    pub fn from_slice(alloc: Global, octets: &[u8]) -> Result<KindText, AllocError>
        ensures ok { IfOk result (λ text. text ≡ octets.now) }
    {
        Ok(KindText {
            octets: SmallVec::from_slice(alloc, octets)?,
        })
    }

    /// Lends the octets.
    pub fn as_slice(&self) -> &[u8]
        ensures exact { result.now ≡ self.now }
    {
        self.octets.as_slice()
    }
}
