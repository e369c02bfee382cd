//! Standard output that takes little at once, and fails.

ghost use Rattle.std.specs.Prelude.{◌≤◌, length, IfOk};

use std::cell::RefCell;
use std::fmt::Display;
use std::io;
use std::io::ErrorKind;
use std::test::Fail;
use wire_io::{PutFault, StdSink, write_all};

/// A standard output in memory. It takes at most two octets a call, and fails where it has no room left.
#[derive(Drop)]
struct Output {
    taken: RefCell<Vec<u8>>,
    room: usize,
    fault: ErrorKind,
}

impl Output {
    /// Takes octets at the front of the piece.
    fn take(&self, piece: &[u8]) -> io::Result<usize>
        ensures bound { IfOk result (λ count. count ≤ length piece.now) }
    {
        let mut taken = self.taken.try_borrow_mut()?;
        let count = self
            .room
            .saturating_sub(taken.len())
            .min(2)
            .min(piece.len());
        if count == 0 {
            return Err(io::Error::from(self.fault));
        }
        taken.extend_from_slice(piece.split_at(count).0)?;
        Ok(count)
    }
}

impl Print for Output {
    fn print<D: Display + Drop>(&self, _value: D) -> io::Result<()> {
        Err(io::Error::from(ErrorKind::Unsupported))
    }

    fn println<D: Display + Drop>(&self, _value: D) -> io::Result<()> {
        Err(io::Error::from(ErrorKind::Unsupported))
    }

    fn write_all(&self, _bytes: &[u8]) -> io::Result<()> {
        Err(io::Error::from(ErrorKind::Unsupported))
    }

    fn write_some(&self, bytes: &[u8]) -> io::Result<usize> {
        self.take(bytes)
    }
}

/// The room of an output, its fault, what putting `a line` and LF answers, and what the output took.
static OUTPUTS: [(usize, ErrorKind, Result<(), PutFault>, &[u8]); 4] = [
    (9, ErrorKind::BrokenPipe, Ok(()), b"a line\n"),
    (3, ErrorKind::BrokenPipe, Err(PutFault::Failed), b"a l"),
    (4, ErrorKind::OutOfMemory, Err(PutFault::NoMemory), b"a li"),
    (0, ErrorKind::Other, Err(PutFault::Failed), b""),
];

#[test]
fn standard_output_takes_a_line_in_pieces_up_to_a_fault(rt: HostRuntime) -> Result<(), Fail> {
    for (room, fault, want, taken) in &OUTPUTS {
        let output = Output {
            taken: RefCell::new(Vec::new(rt.alloc())),
            room: *room,
            fault: *fault,
        };
        let put = write_all(&mut StdSink::new(&output), b"a line\n");
        assert_eq!(rt; put, *want, "{room}");
        assert_eq!(rt; output.taken.into_inner().as_slice(), *taken, "{room}");
    }
    Ok(())
}
