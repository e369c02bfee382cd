//! Files by name.

use crate::FetchFault;

/// Named files. Where the shelf tells, `files` is the files that it has.
pub trait Shelf {
    ghost use Rattle.std.specs.Prelude.{◌≡◌, ◌<◌, ◌≤◌, ℕ, Option, List, length, IfOk};
    ghost use Rattle.wire_io.specs.Files.{Files, FetchGives, FetchCause};

    ghost files: { Self → Option Files };

    ghost faults: { Self → ℕ };

    /// Puts octets of the file, from the place `from` on, at the front of the buffer, and answers
    /// how many: none exactly where the file ends at `from` or before.
    fn fetch(&mut self, name: &str, from: u64, buf: &mut [u8]) -> Result<usize, FetchFault>
        requires { 0 < length buf.old }
        // how many octets, and which
        ensures fits { IfOk result (λ count. count ≤ length buf.new) }
        ensures gives { FetchGives (files self.old) name.now from buf.new result }
        // each refusal
        ensures cause { FetchCause (files self.old) name.now (faults self.old) (faults self.new) result }
        ensures kept { files self.new ≡ files self.old };
}
