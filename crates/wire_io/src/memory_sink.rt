//! A sink in memory.

ghost use Rattle.std.specs.Prelude.{◌≡◌, ◌<◌, ◌≤◌, [], Some, length, IfOk};
ghost use Rattle.plain_values.specs.Counts.{next_count};
ghost use Rattle.wire_io.specs.Putting.{WriteTells, PutCause};
ghost use Rattle.wire_io.specs.MemoryForms.{SinkState, SinkWrites};

use crate::listed::is_listed;
use crate::{PutFault, Sink};
use plain_values::raised;
use std::alloc::Global;
use std::marker::Model;

/// A sink that keeps what is put, and fails at chosen calls.
#[derive(Debug, Drop)]
pub struct MemSink {
    bytes: Vec<u8>,
    failing: Vec<u64>,
    calls: u64,
    faults: u64,
}

impl Model for MemSink {
    ghost use Rattle.wire_io.specs.MemoryForms.{SinkState};

    ghost Value = { SinkState };

    ghost view = { λ sink. record { put = sink.bytes.items; failing = sink.failing.items; calls = sink.calls; faults = sink.faults } };
}

impl MemSink {
    /// A sink with nothing put. It counts the calls of `write` from 0, and those in `failing` fail.
    /// Takes no memory.
    pub fn new(alloc: Global, failing: Vec<u64>) -> MemSink
        ensures exact { result ≡ record { put = []; failing = failing.items; calls = 0; faults = 0 } }
    {
        MemSink {
            bytes: Vec::new(alloc),
            failing,
            calls: 0,
            faults: 0,
        }
    }

    /// The octets put so far.
    pub fn bytes(&self) -> &[u8]
        ensures exact { result.now ≡ self.now.put }
    {
        self.bytes.as_slice()
    }
}

impl Sink for MemSink {
    ghost use Rattle.std.specs.Prelude.{Some};

    ghost put = { λ sink. Some sink.put };

    ghost faults = { λ sink. sink.faults };

    /// Takes the piece whole, or fails at the chosen calls.
    #[tactic(auto, unfolding(crate::specs::Putting::WriteTells, crate::specs::Putting::PutCause, crate::specs::MemoryForms::SinkWrites))]
    fn write(&mut self, bytes: &[u8]) -> Result<usize, PutFault>
        requires { 0 < length bytes.now }
        ensures fits { IfOk result (λ count. (0 < count) × (count ≤ length bytes.now)) }
        ensures tells { WriteTells (Some self.old.put) bytes.now result (Some self.new.put) }
        ensures cause { PutCause self.old.faults self.new.faults result }
        ensures exact { SinkWrites self.old bytes.now result self.new }
    {
        let call = self.calls;
        self.calls = raised(call);
        if is_listed(call, &self.failing) {
            self.faults = raised(self.faults);
            return Err(PutFault::Failed);
        }
        if self.bytes.extend_from_slice(bytes).is_err() {
            return Err(PutFault::NoMemory);
        }
        Ok(bytes.len())
    }
}
