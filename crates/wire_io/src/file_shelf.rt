//! The shelf of the system's files.

ghost use Rattle.std.specs.Prelude.{◌≡◌, ◌≤◌, length, IfOk};
ghost use Rattle.wire_io.specs.SystemForms.{shelf_faults};

use crate::{FetchFault, Shelf};
use plain_values::raised;
use std::io::{ErrorKind, Read, Seek, SeekFrom};
use std::rt::Files;
use std::{fs, io};

/// The files of the system, by their paths. It tells nothing of them; where the system has no such
/// file, that is a fault.
#[derive(Drop)]
pub struct FileShelf<R> {
    rt: R,
    faults: u64,
}

impl<R: Files> FileShelf<R> {
    /// A shelf over the runtime, which had no fault yet.
    pub fn new(rt: R) -> FileShelf<R>
        ensures fresh { shelf_faults result ≡ 0 }
    {
        FileShelf { rt, faults: 0 }
    }
}

impl<R: Files> Shelf for FileShelf<R> {
    ghost use Rattle.std.specs.Prelude.{None};

    ghost files = { λ _. None };

    ghost faults = { λ shelf. shelf.faults };

    #[tactic(auto, unfolding(crate::specs::Files::FetchGives, crate::specs::Files::FetchCause))]
    fn fetch(&mut self, name: &str, from: u64, buf: &mut [u8]) -> Result<usize, FetchFault> {
        match read_at(&self.rt, name, from, buf) {
            Ok(count) => Ok(count),
            Err(error) if error.kind() == ErrorKind::OutOfMemory => Err(FetchFault::NoMemory),
            Err(_) => {
                self.faults = raised(self.faults);
                Err(FetchFault::Failed)
            }
        }
    }
}

/// Reads octets of the file from the place on.
fn read_at<R: Files>(rt: &R, path: &str, from: u64, buf: &mut [u8]) -> io::Result<usize>
    ensures fits { IfOk result (λ count. count ≤ length buf.new) }
{
    let mut file = fs::open(rt, path)?;
    file.seek(SeekFrom::Start(from))?;
    file.read(buf)
}
