//! The events read so far, with the state of each connection that they open.

ghost use Rattle.std.specs.Prelude.{◌≡◌, ◌∷◌, ◌++◌, [], IfOk, IsTrue};
ghost use Rattle.script_text.specs.Connections.{Follows};

use crate::event::ScriptEvent;
use crate::recording::Recording;
use std::alloc::{AllocError, Global};
use std::collections::BTreeMap;
use std::marker::Model;

/// Events in their order. Contracts see the list of them.
#[derive(Drop)]
pub(crate) struct Reading {
    events: Recording,
    // true for a connection that is open, false for one that is ended
    connections: BTreeMap<u32, bool>,
}

impl Model for Reading {
    ghost use Rattle.std.specs.Prelude.{List};
    ghost use Rattle.script_text.specs.declared.event.ScriptEvent.{ScriptEvent};

    ghost Value = { List ScriptEvent };

    ghost view = { λ reading. reading.events };

    ghost use Rattle.script_text.specs.Connections.{Tracks};

    ghost invariant = { λ reading. Tracks reading.connections reading.events };
}

// The states of the connections after an event that may follow.
fn after_event(
    mut connections: BTreeMap<u32, bool>,
    event: &ScriptEvent,
) -> Result<BTreeMap<u32, bool>, AllocError>
    ensures { IfOk result (λ after. Follows connections event.now after) }
{
    match event {
        ScriptEvent::Opened(number) => {
            connections.insert(*number, true)?;
        }
        ScriptEvent::Bytes(_, _) => {}
        ScriptEvent::Ended(number) => {
            connections.insert(*number, false)?;
        }
    }
    Ok(connections)
}

impl Reading {
    ghost use Rattle.script_text.specs.script.Script.{is_open_after, may_follow};

    /// No events.
    pub(crate) fn new(alloc: Global) -> Reading
        ensures { result ≡ [] }
    {
        Reading {
            events: Recording::new(alloc),
            connections: BTreeMap::new(alloc),
        }
    }

    /// Whether the event may come after these.
    pub(crate) fn may_take(&self, event: &ScriptEvent) -> bool
        ensures { result ≡ may_follow self.now event.now }
    {
        match event {
            ScriptEvent::Opened(number) => !self.connections.contains_key(number),
            ScriptEvent::Bytes(number, _) | ScriptEvent::Ended(number) => self.is_open(*number),
        }
    }

    // Whether the connection is open.
    fn is_open(&self, number: u32) -> bool
        ensures { result ≡ is_open_after self.now number }
    {
        matches!(self.connections.get(&number), Some(true))
    }

    /// These events and one more.
    pub(crate) fn with(self, event: ScriptEvent) -> Result<Reading, AllocError>
        requires { IsTrue (may_follow self event) }
        ensures { IfOk result (λ reading. reading ≡ self ++ event ∷ []) }
    {
        let Reading {
            mut events,
            connections,
        } = self;
        let connections = after_event(connections, &event)?;
        events.push(&event)?;
        Ok(Reading {
            events,
            connections,
        })
    }

    /// The events, without memory.
    pub(crate) fn into_events(self) -> Recording
        ensures { result ≡ self }
    {
        let Reading {
            events,
            connections,
        } = self;
        events
    }
}
