//! The hub of all sessions.

ghost use Rattle.std.specs.Prelude.{◌≡◌, ◌≤◌, [], length, option_map, IfOk, OnOk, OnErr};
ghost use Rattle.dir_tree.specs.tree.Numbered.{entries_of};
ghost use Rattle.session_model.specs.Run as run;
ghost use Rattle.session_model.specs.Kept.{kept_of, queue_of, closing_of, cut_of, taken_off, forgotten};
ghost use Rattle.session_hub.specs.Rooms.{room_of, queued_beside, HearsWithin};
ghost use Rattle.session_hub.specs.FirstAnswers.{HearsFirst};
ghost use Rattle.session_hub.specs.hub.Hubs.{held, no_hub, Hears, HearsAnywhere, OpensOne, IsBounded, unread_of};
ghost use Rattle.session_hub.specs.hub.Following.{FollowsStart, FollowsStep, FollowsAnywhere, FollowsTaking, QueuesReply, ClosesWith, RequestsAs, LeavesUnread, CountsHeld};
ghost use Rattle.session_hub.specs.Event.{step_by};
ghost use Rattle.session_hub.specs.Twins.{HearsAlike};

use crate::allowance::Allowance;
use crate::connection::{Connection, fit};
use crate::places::{
    beside, closing_at, cut_at, end_at, forget_at, is_at, open_at, queue_at, requester_at,
    take_off, unread_at,
};
use crate::{Bounds, Event};
use op_read::acdf_filters::Requester;
use op_read::directory::Dir;
use std::alloc::{AllocError, Global};
use std::marker::Model;

/// The most connections that are held at once.
pub const MAX_CONNECTIONS: usize = 256;

/// How many octets of each connection may wait, whatever waits for the others.
const LEAST_ROOM: usize = 1_048_576;

/// All sessions: what of each connection is unread, and what is still to be sent to it. Contracts
/// see the list of the connections held, in the order in which they opened, whether any was cut, what
/// of the changes isn't stored yet, and what is bounded, which stays.
#[derive(Drop)]
pub struct Hub {
    alloc: Global,
    connections: Vec<Connection>,
    was_cut: bool,
    unstored: Vec<u8>,
    bounds: Bounds,
    // the place of the connection that was heard last, where the next is looked for first
    last: usize,
}

impl Model for Hub {
    ghost use Rattle.session_hub.specs.hub.Hubs.{HubState, AreHeld};

    ghost Value = { HubState };

    ghost view = { λ hub. record { kept = hub.connections.items; was_cut = hub.was_cut; unstored = hub.unstored.items; bounds = hub.bounds } };

    ghost invariant = { λ hub. AreHeld hub.connections.items };
}

impl Hub {
    /// A hub that holds nothing, with room for as many connections as it will hold, and with these
    /// bounds.
    pub fn new(alloc: Global, bounds: Bounds) -> Result<Hub, AllocError>
        ensures ok { IfOk result (λ hub. hub ≡ no_hub bounds) }
        ensures run { IfOk result FollowsStart }
    {
        Ok(Hub {
            alloc,
            connections: Vec::with_capacity(alloc, MAX_CONNECTIONS)?,
            was_cut: false,
            unstored: Vec::new(alloc),
            bounds,
            last: 0,
        })
    }

    /// How many connections are held.
    pub fn count(&self) -> usize
        ensures exact { result ≡ length self.now.kept }
        ensures run { CountsHeld self.now result }
    {
        self.connections.len()
    }

    /// The octets still to be sent to the connection; none for one that isn't held. No memory is
    /// taken.
    pub fn queue(&self, conn: u32) -> &[u8]
        ensures exact { result.now ≡ queue_of conn self.now.kept }
        ensures run { QueuesReply conn self.now result.now }
    {
        queue_at(&self.connections, self.last, conn)
    }

    /// Whether the connection is to be hung up when nothing is left in its queue.
    pub fn closing(&self, conn: u32) -> bool
        ensures exact { result ≡ closing_of conn self.now.kept }
        ensures run { ClosesWith conn self.now result }
    {
        closing_at(&self.connections, self.last, conn)
    }

    /// Who asks on the connection, if it is held; None exactly where it isn't. No memory is taken.
    pub fn requester(&self, conn: u32) -> Option<&Requester>
        ensures exact { option_map (λ who. who.now) result ≡ option_map (λ connection. connection.who) (kept_of conn self.now.kept) }
        ensures run { RequestsAs conn self.now (option_map (λ who. who.now) result) }
    {
        requester_at(&self.connections, self.last, conn)
    }

    /// The octets of the connection that are part of no whole message yet; none for one that isn't held or is closing. No
    /// memory is taken.
    pub fn unread(&self, conn: u32) -> &[u8]
        ensures exact { result.now ≡ unread_of (kept_of conn self.now.kept) }
        ensures run { LeavesUnread conn self.now result.now }
    {
        unread_at(&self.connections, self.last, conn)
    }

    /// Behind how many messages of its last octets the connection was cut, if it was.
    pub fn cut(&self, conn: u32) -> Option<u64>
        ensures { result ≡ cut_of conn self.now.kept }
    {
        cut_at(&self.connections, self.last, conn)
    }

    /// Whether any connection was cut so far.
    pub fn was_cut(&self) -> bool
        ensures { result ≡ self.now.was_cut }
    {
        self.was_cut
    }

    /// The records of accepted changes that aren't stored yet (RFC 2849), in their order, each with an empty line behind it;
    /// none where the bounds' terms have none kept.
    pub fn unstored(&self) -> &[u8]
        ensures { result.now ≡ self.now.unstored }
    {
        &self.unstored
    }

    /// Whether each accepted change is to be stored.
    pub(crate) fn keeps(&self) -> bool
        ensures { result ≡ self.now.bounds.terms.keeps }
    {
        self.bounds.terms.keeps
    }

    /// All changes were stored. No memory is taken.
    pub fn stored(&mut self)
        ensures { self.new ≡ record self.old { unstored = [] } }
    {
        self.unstored.clear();
        fit(&mut self.unstored);
    }

    /// The first `count` octets of the connection's queue, which has as many, were taken. No memory is
    /// taken.
    pub fn took(&mut self, conn: u32, count: usize)
        requires { count ≤ length (queue_of conn self.old.kept) }
        ensures exact { self.new ≡ record self.old { kept = taken_off conn count self.old.kept } }
        ensures run { FollowsTaking conn count self.old self.new }
    {
        take_off(&mut self.connections, self.last, conn, count);
    }

    /// Hears an event (RFC 4511 5): a connection that opens is held where there is room, the
    /// whole messages of octets are answered, and the end of a peer's octets closes. Nothing is
    /// changed by the events of connections that aren't held, nor by the opening of one that is.
    /// A search is answered within the bounds' limit, and each accepted change is recorded as `unstored`
    /// where the bounds' terms say so. Where there is no memory for an answer, or more
    /// waits for the connection than it has room for, that connection alone is cut, which closes it, and
    /// `cut` tells where. A connection keeps the room for its first answer from its opening: where nothing of it is queued,
    /// the notice to a broken stream and the answer to an anonymous bind at the front of what is unread and a piece are never
    /// cut, but for a bind of more than 64 octets that came in several pieces.
    /// `AllocError` comes where a connection is to be held and there is no memory;
    /// all is then as it was. Over twins of the directory the same is answered to requests that read.
    pub fn hear<D: Dir>(&mut self, dir: &mut D, event: Event<'_>) -> Result<(), AllocError>
        ensures exact { OnOk result (Hears self.old.bounds.terms event.entry
            (held (entries_of (D.rows dir.old)) self.old) (held (entries_of (D.rows dir.new)) self.new)) }
        ensures run { OnOk result (FollowsStep self.old.bounds.terms (step_by event.entry self.old.kept self.new.kept)
            (held (entries_of (D.rows dir.old)) self.old) (held (entries_of (D.rows dir.new)) self.new)) }
        ensures twins { OnOk result (HearsAlike self.old.bounds.terms (step_by event.entry self.old.kept self.new.kept)
            (held (entries_of (D.rows dir.old)) self.old) (held (entries_of (D.rows dir.new)) self.new)) }
        ensures cause { OnErr result (OpensOne event.entry self.old.kept) }
        ensures kept { OnErr result
            (held (entries_of (D.rows dir.new)) self.new ≡ held (entries_of (D.rows dir.old)) self.old) }
        ensures bounded { IsBounded self.new.kept }
        ensures room { HearsWithin event.entry self.old.bounds (entries_of (D.rows dir.old)) self.old.kept self.new.kept }
        ensures first { HearsFirst event.entry self.old.kept self.new.kept }
        ensures bounds { self.new.bounds ≡ self.old.bounds }
    {
        match event {
            Event::Opened(conn) => self.open(conn),
            Event::Bytes(conn, piece) => {
                let Some(at) = open_at(&self.connections, self.last, conn) else {
                    return Ok(());
                };
                let allowed = self.allowance(conn);
                self.last = at;
                let connection = &mut self.connections[at];
                connection.hear(self.alloc, dir, piece, allowed, &mut self.unstored);
                self.was_cut |= connection.cut().is_some();
                Ok(())
            }
            Event::Ended(conn) => {
                self.end(conn);
                Ok(())
            }
        }
    }

    /// Forgets a connection that was found lost.
    pub fn gone(&mut self, conn: u32)
        ensures exact { self.new ≡ record self.old { kept = forgotten conn self.old.kept } }
        ensures run { FollowsAnywhere (run.Gone conn) self.old self.new }
    {
        self.forget(conn);
    }

    /// Forgets a connection that was hung up.
    pub fn drop_conn(&mut self, conn: u32)
        ensures exact { self.new ≡ record self.old { kept = forgotten conn self.old.kept } }
        ensures run { FollowsAnywhere (run.HungUp conn) self.old self.new }
    {
        self.forget(conn);
    }

    fn open(&mut self, conn: u32) -> Result<(), AllocError>
        ensures ok { OnOk result (HearsAnywhere (Event.Opened conn) self.old self.new) }
        ensures cause { OnErr result (OpensOne (Event.Opened conn) self.old.kept) }
        ensures kept { OnErr result (self.new ≡ self.old) }
        ensures bounded { IsBounded self.new.kept }
        ensures bounds { self.new.bounds ≡ self.old.bounds }
    {
        if is_at(&self.connections, self.last, conn) {
            return Ok(());
        }
        if self.connections.len() >= MAX_CONNECTIONS {
            return Ok(());
        }
        let connection = Connection::new(self.alloc, conn)?;
        self.connections.push(connection)?;
        Ok(())
    }

    fn end(&mut self, conn: u32)
        ensures ended { HearsAnywhere (Event.Ended conn) self.old self.new }
        ensures bounded { IsBounded self.new.kept }
        ensures bounds { self.new.bounds ≡ self.old.bounds }
    {
        end_at(&mut self.connections, self.last, conn);
    }

    /// What the connection is allowed now, by what waits for the others.
    fn allowance(&self, conn: u32) -> Allowance
        ensures terms { result.terms ≡ self.now.bounds.terms }
        ensures room { result.room ≡ room_of self.now.bounds.queues (queued_beside conn self.now.kept) }
    {
        let others = beside(&self.connections, conn);
        Allowance {
            terms: self.bounds.terms,
            room: room_beside(self.bounds.queues, others),
        }
    }

    fn forget(&mut self, conn: u32)
        ensures { self.new ≡ record self.old { kept = forgotten conn self.old.kept } }
    {
        forget_at(&mut self.connections, self.last, conn);
    }
}

/// How many octets of a connection may wait, where so many of the others do.
fn room_beside(queues: u64, others: u64) -> usize
    ensures { result ≡ room_of queues others }
{
    LEAST_ROOM.max(queues.saturating_sub(others) as usize)
}
