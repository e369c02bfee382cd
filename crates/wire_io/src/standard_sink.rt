//! The sink of the system's standard output.

ghost use Rattle.std.specs.Prelude.{◌≡◌};
ghost use Rattle.wire_io.specs.SystemForms.{sink_faults};

use crate::{PutFault, Sink};
use plain_values::raised;
use std::io::ErrorKind;

/// The standard output. It tells nothing of what was put.
#[derive(Drop)]
pub struct StdSink<R> {
    rt: R,
    faults: u64,
}

impl<R: Print> StdSink<R> {
    /// A sink over the runtime, which had no fault yet.
    pub fn new(rt: R) -> StdSink<R>
        ensures fresh { sink_faults result ≡ 0 }
    {
        StdSink { rt, faults: 0 }
    }
}

impl<R: Print> Sink for StdSink<R> {
    ghost use Rattle.std.specs.Prelude.{None};

    ghost put = { λ _. None };

    ghost faults = { λ sink. sink.faults };

    #[tactic(auto, unfolding(crate::specs::Putting::WriteTells, crate::specs::Putting::PutCause))]
    fn write(&mut self, bytes: &[u8]) -> Result<usize, PutFault> {
        match self.rt.write_some(bytes) {
            Ok(count) if count > 0 => Ok(count),
            Err(error) if error.kind() == ErrorKind::OutOfMemory => Err(PutFault::NoMemory),
            _ => {
                self.faults = raised(self.faults);
                Err(PutFault::Failed)
            }
        }
    }
}
