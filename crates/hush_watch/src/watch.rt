//! What each event of a replay shows of a hush.

ghost use Rattle.std.specs.Prelude.{◌≡◌, ◌==◌, cond, IfOk, None, Some, option_and_then};
ghost use Rattle.dir_tree.specs.tree.Numbered.{entries_of};
ghost use Rattle.session_hub.specs.session_model.Run.{Opened, Bytes, Ended, step, start};
ghost use Rattle.session_hub.specs.session_model.Replaying.{number_of as number_in, step_and_hang_up};
ghost use Rattle.session_hub.specs.Answering.{rules};
ghost use Rattle.session_hub.specs.Terms.{no_terms};
ghost use Rattle.event_replay.specs.Played.{ArePlayed, played_steps, step_of};
ghost use Rattle.hush_laws.specs.Requests.{failing_request as failing_octets};
ghost use Rattle.hush_laws.specs.TwinParts.{IsBeginning};
ghost use Rattle.hush_looks.specs.Looks.{failing_look};
ghost use Rattle.hush_watch.specs.Watching.{IsWatched, IsWatchedOfSome, Shows, ShowsMessage, first_shown as first_among};

use crate::watched::Watched;
use aci_index::IndexedDir;
use dir_tree::NoMemory;
use dir_tree::dn_names::Dn;
use hush_laws::{Beginning, Fault, Part, failing_request};
use hush_looks::{is_due, look};
use session_hub::Event;
use session_hub::session_model::script_text::ScriptEvent;
use std::alloc::Global;

/// What is watched: the hush of a subtree for a connection, by the directory as it was at the beginning.
#[derive(Drop)]
pub(crate) struct Watch<'a> {
    pub(crate) alloc: Global,
    pub(crate) before: &'a IndexedDir,
    pub(crate) begun: Beginning,
    pub(crate) number: u32,
    pub(crate) top: &'a Dn,
    pub(crate) ghost beginning: { IsBeginning top.now (entries_of before.now) begun.governs begun.lists_group },
}

// The connection of an event.
fn number_of(event: &ScriptEvent) -> u32
    ensures exact { result ≡ number_in (step_of event.now) }
{
    match event {
        ScriptEvent::Opened(conn) => *conn,
        ScriptEvent::Bytes(conn, _) => *conn,
        ScriptEvent::Ended(conn) => *conn,
    }
}

impl<'a> Watch<'a> {
    // What a look finds, where one is due.
    fn look_where(&self, due: bool, watched: &Watched) -> Result<Option<Part>, NoMemory>
        ensures ok { IfOk result (λ part. part
            ≡ cond due (failing_look self.now.number self.now.top.now (entries_of self.now.before.now) watched.now.tree watched.now.kept) None) }
    {
        if !due {
            return Ok(None);
        }
        look(
            self.alloc,
            self.before,
            self.begun,
            &watched.dir,
            &watched.hub,
            self.number,
            self.top,
        )
    }

    // The first part that forbids a message, where it is the connection's own.
    fn forbidding(&self, own: bool, message: &[u8]) -> Result<Option<Part>, NoMemory>
        ensures ok { IfOk result (λ part. part
            ≡ option_and_then (failing_octets self.now.top.now) (cond own (Some message.now) None)) }
    {
        if own {
            failing_request(self.alloc, self.top, message)
        } else {
            Ok(None)
        }
    }

    // Hears a piece that completes the message, and tells the first part broken behind it.
    fn watch_message(
        &self,
        watched: &mut Watched,
        conn: u32,
        piece: &[u8],
        message: &[u8],
    ) -> Result<Option<Part>, NoMemory>
        ensures ok { IfOk result (λ part.
            ShowsMessage self.now.number self.now.top.now (entries_of self.now.before.now)
            conn piece.now message.now watched.old part watched.new) }
    {
        watched.hear(Event::Bytes(conn, piece))?;
        let own = conn == self.number;
        let due = is_due(self.alloc, own, message)?;
        match self.look_where(due, watched)? {
            Some(part) => Ok(Some(part)),
            None => self.forbidding(own, message),
        }
    }

    // Hears octets message by message, up to the first behind which a part is broken.
    fn watch_octets(
        &self,
        watched: &mut Watched,
        conn: u32,
        octets: &[u8],
    ) -> Result<Option<Part>, NoMemory>
        requires { IsWatchedOfSome self.now.number self.now.top.now (entries_of self.now.before.now) watched.old }
        ensures ok { IfOk result (λ part.
            Shows self.now.number self.now.top.now (entries_of self.now.before.now)
            (step (rules no_terms)) (Bytes conn octets.now None) watched.old part watched.new) }
    {
        let mut rest = octets;
        while let Some(next) = watched.next_of(self.alloc, conn, rest)? {
            let (front, behind) = rest.split_at(next.count);
            if let Some(part) = self.watch_message(watched, conn, front, next.octets.as_slice())? {
                return Ok(Some(part));
            }
            rest = behind;
        }
        watched.hear(Event::Bytes(conn, rest))?;
        Ok(None)
    }

    // Hears that a connection opens: the watched one may find no room.
    fn watch_opening(&self, watched: &mut Watched, conn: u32) -> Result<Option<Part>, NoMemory>
        ensures ok { IfOk result (λ part.
            Shows self.now.number self.now.top.now (entries_of self.now.before.now)
            (step (rules no_terms)) (Opened conn) watched.old part watched.new) }
    {
        let has_room = watched.has_room();
        watched.hear(Event::Opened(conn))?;
        if conn != self.number {
            return Ok(None);
        }
        if has_room {
            self.look_where(true, watched)
        } else {
            Ok(Some(Part::TurnedAway))
        }
    }

    // Hears that a peer sends no more.
    fn watch_end(&self, watched: &mut Watched, conn: u32) -> Result<Option<Part>, NoMemory>
        ensures ok { IfOk result (λ part.
            Shows self.now.number self.now.top.now (entries_of self.now.before.now)
            (step (rules no_terms)) (Ended conn) watched.old part watched.new) }
    {
        watched.hear(Event::Ended(conn))?;
        Ok(None)
    }

    // Hears an event.
    fn hear_event(
        &self,
        watched: &mut Watched,
        event: &ScriptEvent,
    ) -> Result<Option<Part>, NoMemory>
        requires { IsWatchedOfSome self.now.number self.now.top.now (entries_of self.now.before.now) watched.old }
        ensures ok { IfOk result (λ part.
            Shows self.now.number self.now.top.now (entries_of self.now.before.now)
            (step (rules no_terms)) (step_of event.now) watched.old part watched.new) }
    {
        match event {
            ScriptEvent::Opened(conn) => self.watch_opening(watched, *conn),
            ScriptEvent::Bytes(conn, octets) => self.watch_octets(
                watched,
                *conn,
                octets.as_slice(),
            ),
            ScriptEvent::Ended(conn) => self.watch_end(watched, *conn),
        }
    }

    // The first part that an event shows broken; its connection is hung up if it is to be.
    fn watch_event(
        &self,
        watched: &mut Watched,
        event: &ScriptEvent,
    ) -> Result<Option<Part>, NoMemory>
        requires { IsWatchedOfSome self.now.number self.now.top.now (entries_of self.now.before.now) watched.old }
        ensures ok { IfOk result (λ part.
            Shows self.now.number self.now.top.now (entries_of self.now.before.now)
            (step_and_hang_up (rules no_terms)) (step_of event.now) watched.old part watched.new) }
    {
        let found = self.hear_event(watched, event)?;
        watched.let_go(number_of(event));
        Ok(found)
    }

    /// What breaks the hush first while the events are replayed, from the beginning on. The error comes where memory is
    /// wanted.
    pub(crate) fn first_shown(
        &self,
        watched: &mut Watched,
        events: &[ScriptEvent],
    ) -> Result<Option<Fault>, NoMemory>
        requires begins { IsWatched self.now.number self.now.top.now (entries_of self.now.before.now)
            (start (rules no_terms) (entries_of self.now.before.now)) watched.old }
        requires played { ArePlayed events.now }
        ensures ok { IfOk result (λ fault. fault
            ≡ first_among self.now.number self.now.top.now (entries_of self.now.before.now) (played_steps events.now)) }
    {
        let mut heard = 0;
        for event in events {
            heard += 1;
            if let Some(part) = self.watch_event(watched, event)? {
                return Ok(Some(Fault { heard, part }));
            }
        }
        Ok(None)
    }
}
