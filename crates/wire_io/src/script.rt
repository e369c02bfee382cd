//! The events of a script that are still to come.

ghost use Rattle.std.specs.Prelude.{◌≡◌, ◌<◌, ◌++◌, min, take, drop, length, Some};
ghost use Rattle.script_text.specs.Recording.{first_head, first_octets, without_first};
ghost use Rattle.script_text.specs.script.Script.{AreFilled};
ghost use Rattle.wire_io.specs.Answers.{HeardFits};
ghost use Rattle.wire_io.specs.Playing.{first_conn, front_turn, next_turn, holds_of, left_by};
ghost use Rattle.wire_io.specs.link.Telling.{event_of};

use crate::copying::copy_front;
use crate::tracked_journal::TrackedJournal;
use crate::{Heard, ScriptEvent};
use script_text::{EventKind, Head, Recording};
use std::alloc::Global;
use std::marker::Model;

/// Events still to come, those of a list before those of a recording; the first may have been given
/// in part. Contracts see the list of them all.
#[derive(Debug, Drop)]
pub(crate) struct Script {
    listed: Vec<ScriptEvent>,
    // how many of the list are passed
    place: usize,
    recorded: Recording,
    // how many octets of the first event that is left were given
    given: usize,
}

impl Model for Script {
    ghost use Rattle.std.specs.Prelude.{List, ◌++◌, drop};
    ghost use Rattle.script_text.specs.declared.event.ScriptEvent.{ScriptEvent};
    ghost use Rattle.wire_io.specs.Playing.{without_front};

    ghost Value = { List ScriptEvent };

    ghost view = { λ script. without_front script.given (drop script.place script.listed.items ++ script.recorded) };
}

impl Script {
    /// The events of a list, without memory.
    pub(crate) fn of_list(alloc: Global, events: Vec<ScriptEvent>) -> Script
        ensures exact { result ≡ events.items }
    {
        Script {
            listed: events,
            place: 0,
            recorded: Recording::new(alloc),
            given: 0,
        }
    }

    /// The events of a recording, without memory.
    pub(crate) fn of_recording(alloc: Global, recorded: Recording) -> Script
        ensures exact { result ≡ recorded }
    {
        Script {
            listed: Vec::new(alloc),
            place: 0,
            recorded,
            given: 0,
        }
    }

    /// What the first event is.
    fn first(&self) -> Option<Head>
        ensures exact { result ≡ first_head self.now }
    {
        first_of(self.listed.as_slice(), self.place, &self.recorded)
    }

    /// The octets of the first event that were not given yet.
    fn octets(&self) -> &[u8]
        ensures exact { result.now ≡ first_octets self.now }
    {
        let octets = octets_of_first(self.listed.as_slice(), self.place, &self.recorded);
        rest(octets, self.given)
    }

    /// The connection of the first event.
    pub(crate) fn conn(&self) -> Option<u32>
        ensures exact { result ≡ first_conn self.now }
    {
        match self.first() {
            Some(head) => Some(head.conn),
            None => None,
        }
    }

    #[tactic(auto, unfolding(crate::specs::Playing::front_turn, crate::specs::Playing::first_turn, crate::specs::Playing::left_over, crate::specs::link::Telling::event_of))]
    /// Gives the first event, as many of its octets as the buffer has room for; Stop after the last.
    pub(crate) fn give(&self, buf: &mut [u8]) -> Heard
        requires room { 0 < length buf.old }
        requires filled { AreFilled self.now }
        ensures fits { HeardFits (length buf.new) result }
        ensures exact { event_of buf.new result ≡ (front_turn (length buf.old) self.now).event }
        ensures left { left_by result (length buf.old) self.now ≡ (front_turn (length buf.old) self.now).left }
    {
        let Some(head) = self.first() else {
            return Heard::Stop;
        };
        match head.kind {
            EventKind::Opened => Heard::Opened(head.conn),
            EventKind::Bytes => Heard::Bytes(head.conn, copy_octets(self.octets(), buf)),
            EventKind::Ended => Heard::Ended(head.conn),
        }
    }

    /// Goes past the event that was given in a buffer of the length.
    pub(crate) fn pass(&mut self, heard: Heard, len: usize)
        ensures exact { self.new ≡ left_by heard len self.old }
    {
        match heard {
            Heard::Opened(_) | Heard::Bytes(_, _) | Heard::Ended(_) => self.advance(len),
            Heard::Ready(_) | Heard::Idle | Heard::Stop => {}
        }
    }

    /// Goes past what was given of the first event in a buffer of the length.
    fn advance(&mut self, len: usize)
        ensures exact { self.new ≡ (front_turn len self.old).left }
    {
        let octets = octets_of_first(self.listed.as_slice(), self.place, &self.recorded);
        if len < octets.len().saturating_sub(self.given) {
            self.given += len;
        } else {
            self.pass_first();
        }
    }

    /// Goes past the first event, if there is one.
    fn pass_first(&mut self)
        ensures exact { self.new ≡ without_first self.old }
    {
        if self.place < self.listed.len() {
            self.place += 1;
        } else {
            self.recorded.pass();
        }
        self.given = 0;
    }
}

/// What the first event is of those of the list from the place on and then of the recording.
fn first_of(listed: &[ScriptEvent], place: usize, recorded: &Recording) -> Option<Head>
    ensures exact { result ≡ first_head (drop place listed.now ++ recorded.now) }
{
    match listed.get(place) {
        Some(event) => Some(event.head()),
        None => recorded.first(),
    }
}

/// The octets of the first event of those of the list from the place on and then of the recording.
fn octets_of_first<'a>(listed: &'a [ScriptEvent], place: usize, recorded: &'a Recording) -> &'a [u8]
    ensures exact { result.now ≡ first_octets (drop place listed.now ++ recorded.now) }
{
    match listed.get(place) {
        Some(event) => event.octets(),
        None => recorded.octets(),
    }
}

/// The next event, with octets at the front of the buffer: Ready where the first planned one is of a
/// connection on hold.
#[tactic(auto, unfolding(crate::specs::Playing::next_turn, crate::specs::Playing::front_turn, crate::specs::Playing::holds_of, crate::specs::link::Telling::event_of))]
pub(crate) fn turn(script: &Script, journal: &TrackedJournal, buf: &mut [u8]) -> Heard
    requires room { 0 < length buf.old }
    requires filled { AreFilled script.now }
    ensures fits { HeardFits (length buf.new) result }
    ensures event { event_of buf.new result ≡ (next_turn (holds_of (Some journal.now)) (length buf.old) script.now).event }
    ensures left { left_by result (length buf.old) script.now ≡ (next_turn (holds_of (Some journal.now)) (length buf.old) script.now).left }
{
    let Some(conn) = script.conn() else {
        return Heard::Stop;
    };
    if journal.on_hold(conn) {
        return Heard::Ready(conn);
    }
    script.give(buf)
}

/// The octets past those given.
fn rest(octets: &[u8], given: usize) -> &[u8]
    ensures exact { result.now ≡ drop given octets.now }
{
    if given < octets.len() {
        octets.split_at(given).1
    } else {
        &[]
    }
}

/// Copies the octets, as many as the buffer has room for, and says how many.
fn copy_octets(octets: &[u8], buf: &mut [u8]) -> usize
    ensures count { result ≡ min (length octets.now) (length buf.old) }
    ensures exact { take result buf.new ≡ take (length buf.old) octets.now }
{
    copy_front(octets, buf)
}
