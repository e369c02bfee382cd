//! Octets put one after another.

use crate::PutFault;

/// What takes octets in order. Where the sink tells, `put` is the octets put so far.
pub trait Sink {
    ghost use Rattle.std.specs.Prelude.{◌≡◌, ◌<◌, ◌≤◌, ℕ, Option, List, length, IfOk};
    ghost use Rattle.wire_io.specs.Putting.{WriteTells, PutCause};

    ghost put: { Self → Option (List ℕ) };

    ghost faults: { Self → ℕ };

    /// Takes octets from the front of the piece, at least one, and answers how many; a refusal
    /// takes none.
    fn write(&mut self, bytes: &[u8]) -> Result<usize, PutFault>
        requires { 0 < length bytes.now }
        ensures fits { IfOk result (λ count. (0 < count) × (count ≤ length bytes.now)) }
        ensures tells { WriteTells (put self.old) bytes.now result (put self.new) }
        ensures cause { PutCause (faults self.old) (faults self.new) result };
}
