//! Events one after another, with their octets in one piece of memory.

ghost use Rattle.std.specs.Prelude.{◌≡◌, ◌++◌, ◌∷◌, [], length, take, drop, OnOk, OnErr};
ghost use Rattle.script_text.specs.Recording.{event_with, head_of, octets_in, first_head, first_octets, without_first};

use crate::event::ScriptEvent;
use std::alloc::{AllocError, Global};
use std::marker::Model;

/// What happens to a connection.
#[derive(Clone, Copy, Debug)]
pub enum EventKind {
    /// It is opened.
    Opened,
    /// Octets come on it.
    Bytes,
    /// The other side ends it.
    Ended,
}

/// What an event is, without its octets.
#[derive(Clone, Copy, Debug)]
pub struct Head {
    pub kind: EventKind,
    pub conn: u32,
}

impl ScriptEvent {
    /// What the event is.
    pub fn head(&self) -> Head
        ensures exact { result ≡ head_of self.now }
    {
        let (kind, conn) = match self {
            ScriptEvent::Opened(conn) => (EventKind::Opened, *conn),
            ScriptEvent::Bytes(conn, _) => (EventKind::Bytes, *conn),
            ScriptEvent::Ended(conn) => (EventKind::Ended, *conn),
        };
        Head { kind, conn }
    }

    /// The octets of the event, none where it has none.
    pub fn octets(&self) -> &[u8]
        ensures exact { result.now ≡ octets_in self.now }
    {
        match self {
            ScriptEvent::Bytes(_, octets) => octets.as_slice(),
            ScriptEvent::Opened(_) | ScriptEvent::Ended(_) => &[],
        }
    }
}

/// The head of an event, and how many octets it has.
#[derive(Clone, Copy, Debug)]
pub(crate) struct Row {
    pub(crate) head: Head,
    pub(crate) size: usize,
}

/// Events in their order, of which those in front may be passed. An event takes 16 octets of memory
/// beside its own. Contracts see the list of the events that are left.
#[derive(Debug, Drop)]
pub struct Recording {
    rows: Vec<Row>,
    octets: Vec<u8>,
    // how many rows are passed, and how many octets
    place: usize,
    start: usize,
}

impl Model for Recording {
    ghost use Rattle.std.specs.Prelude.{List, drop};
    ghost use Rattle.script_text.specs.declared.event.ScriptEvent.{ScriptEvent};
    ghost use Rattle.script_text.specs.Recording.{events_from, IsPacked};

    ghost Value = { List ScriptEvent };

    ghost view = { λ recording. events_from (drop recording.place recording.rows.items) (drop recording.start recording.octets.items) };

    ghost invariant = { λ recording. IsPacked recording.place recording.start recording.rows.items recording.octets.items };
}

impl Recording {
    /// No events. Takes no memory.
    pub fn new(alloc: Global) -> Recording
        ensures exact { result ≡ [] }
    {
        Recording {
            rows: Vec::new(alloc),
            octets: Vec::new(alloc),
            place: 0,
            start: 0,
        }
    }

    /// How many events are left.
    pub fn len(&self) -> usize
        ensures exact { result ≡ length self.now }
    {
        self.rows.as_slice().len() - self.place
    }

    /// What the first event that is left is; None where none is.
    pub fn first(&self) -> Option<Head>
        ensures exact { result ≡ first_head self.now }
    {
        match self.rows.get(self.place) {
            Some(row) => Some(row.head),
            None => None,
        }
    }

    /// The octets of the first event that is left, none where it has none.
    pub fn octets(&self) -> &[u8]
        ensures exact { result.now ≡ first_octets self.now }
    {
        match self.rows.get(self.place) {
            Some(row) => octets_of(row, rest(self.octets.as_slice(), self.start)),
            None => &[],
        }
    }

    /// Passes the first event that is left; nothing changes where none is.
    pub fn pass(&mut self)
        ensures exact { self.new ≡ without_first self.old }
    {
        if let Some(row) = self.rows.get(self.place) {
            self.start += row.size;
            self.place += 1;
        }
    }

    /// Adds the event at the end. The error comes for want of memory alone, and changes nothing.
    pub(crate) fn push(&mut self, event: &ScriptEvent) -> Result<(), AllocError>
        ensures ok { OnOk result (self.new ≡ self.old ++ event.now ∷ []) }
        ensures err { OnErr result (self.new ≡ self.old) }
    {
        self.add(event.head(), event.octets())
    }

    /// Adds an event with the head and the octets, which are none but of `Bytes`, at the end.
    fn add(&mut self, head: Head, octets: &[u8]) -> Result<(), AllocError>
        ensures ok { OnOk result (self.new ≡ self.old ++ event_with head octets.now ∷ []) }
        ensures err { OnErr result (self.new ≡ self.old) }
    {
        self.rows.reserve(1)?;
        self.octets.extend_from_slice(octets)?;
        let size = octets.len();
        self.rows.push(Row { head, size }).unwrap();
        Ok(())
    }
}

/// The octets of the row's event, where its octets and those after it are these.
fn octets_of<'a>(row: &Row, octets: &'a [u8]) -> &'a [u8]
    ensures exact { result.now ≡ octets_in (event_with row.now.head (take row.now.size octets.now)) }
{
    match row.head.kind {
        EventKind::Bytes => front(octets, row.size),
        EventKind::Opened | EventKind::Ended => &[],
    }
}

/// The octets from the place on.
fn rest(octets: &[u8], start: usize) -> &[u8]
    ensures exact { result.now ≡ drop start octets.now }
{
    if start < octets.len() {
        octets.split_at(start).1
    } else {
        &[]
    }
}

/// So many octets at the front, all where there are fewer.
fn front(octets: &[u8], size: usize) -> &[u8]
    ensures exact { result.now ≡ take size octets.now }
{
    octets.split_at(size.min(octets.len())).0
}
