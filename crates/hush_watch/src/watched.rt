//! The sessions that a watch holds.

ghost use Rattle.std.specs.Prelude.{◌≡◌, ◌≤◌, nat_lt, None, length, IfOk, IfSome, OnOk};
ghost use Rattle.dir_tree.specs.tree.Numbered.{entries_of};
ghost use Rattle.session_hub.specs.session_model.Run.{start, most_held};
ghost use Rattle.session_hub.specs.session_model.Kept.{kept_of};
ghost use Rattle.session_hub.specs.Answering.{rules};
ghost use Rattle.session_hub.specs.Event.{step_of};
ghost use Rattle.session_hub.specs.Terms.{no_terms};
ghost use Rattle.hush_watch.specs.Served.{Holds, Hears, HangsUp};
ghost use Rattle.hush_watch.specs.NextMessages.{is_open_in, ShowsNext};

use crate::next_message::{NextMessage, next_message};
use aci_index::IndexedDir;
use dir_tree::{NoMemory, Tree};
use session_hub::laws::an_event_is_heard_whole_where_nothing_was_cut;
use session_hub::{Bounds, Event, Hub, MAX_CONNECTIONS};
use std::alloc::{AllocError, Global};
use std::marker::Model;

/// A directory, and a hub that hears the events of all its connections with nothing bounded. Contracts see what is held.
#[derive(Drop)]
pub(crate) struct Watched {
    pub(crate) hub: Hub,
    pub(crate) dir: IndexedDir,
}

impl Model for Watched {
    ghost use Rattle.std.specs.Prelude.{◌≡◌};
    ghost use Rattle.dir_tree.specs.tree.Numbered.{entries_of};
    ghost use Rattle.session_hub.specs.hub.Hubs.{held};
    ghost use Rattle.session_hub.specs.Terms.{no_terms};
    ghost use Rattle.hush_watch.specs.Served.{ServedHeld};

    ghost Value = { ServedHeld };

    ghost view = { λ watched. held (entries_of watched.dir) watched.hub };

    ghost invariant = { λ watched. watched.hub.bounds.terms ≡ no_terms };
}

impl Watched {
    /// Before any event. The error comes where memory is wanted.
    pub(crate) fn new(alloc: Global, tree: Tree) -> Result<Watched, NoMemory>
        ensures ok { IfOk result (Holds (start (rules no_terms) (entries_of tree))) }
    {
        let hub = Hub::new(alloc, Bounds::NONE)?;
        let dir = IndexedDir::new(alloc, tree)?;
        Ok(Watched { hub, dir })
    }

    /// Whether another connection may be held.
    pub(crate) fn has_room(&self) -> bool
        ensures exact { result ≡ nat_lt (length self.now.kept) most_held }
    {
        self.hub.count() < MAX_CONNECTIONS
    }

    /// Hears an event whole. The error comes where memory is wanted, for the answers of its connection too.
    pub(crate) fn hear(&mut self, event: Event<'_>) -> Result<(), NoMemory>
        ensures ok { OnOk result (Hears (step_of event.entry None) self.old self.new) }
    {
        an_event_is_heard_whole_where_nothing_was_cut();
        self.hub.hear(&mut self.dir, event)?;
        if self.hub.was_cut() {
            return Err(AllocError);
        }
        Ok(())
    }

    /// Takes what waits for the connection, and forgets it if it is to be hung up.
    pub(crate) fn let_go(&mut self, conn: u32)
        ensures { HangsUp conn self.old self.new }
    {
        let count = self.hub.queue(conn).len();
        self.hub.took(conn, count);
        if self.hub.closing(conn) {
            self.hub.drop_conn(conn);
        }
    }

    // Whether the connection is open: it is held, and not closing.
    fn is_open(&self, conn: u32) -> bool
        ensures exact { result ≡ is_open_in (kept_of conn self.now.kept) }
    {
        match self.hub.requester(conn) {
            Some(_) => !self.hub.closing(conn),
            None => false,
        }
    }

    /// The next message of an open connection, if the piece completes one. The error comes where memory is wanted.
    pub(crate) fn next_of(
        &self,
        alloc: Global,
        conn: u32,
        piece: &[u8],
    ) -> Result<Option<NextMessage>, NoMemory>
        ensures ok { IfOk result (ShowsNext conn piece.now self.now) }
        ensures fits { IfOk result (λ found. IfSome found (λ next. next.count ≤ length piece.now)) }
    {
        if self.is_open(conn) {
            next_message(alloc, self.hub.unread(conn), piece)
        } else {
            Ok(None)
        }
    }
}
