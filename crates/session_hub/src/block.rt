//! The block of an event of a link: the event is heard, what it changed is stored, and who is due is served.

ghost use Rattle.std.specs.Prelude.{◌≡◌, ◌≢◌, [], length, true, OnOk, OnErr};
ghost use Rattle.session_model.specs.wire_io.Answers.{HeardFits};
ghost use Rattle.session_model.specs.wire_io.link.Telling.{event_of};
ghost use Rattle.session_model.specs.wire_io.declared.journal.Event.TheVariants as event;
ghost use Rattle.session_hub.specs.Telling.{journal_event_of, IsOf};
ghost use Rattle.session_hub.specs.serve.Servers.{Stays, OnlyServes, OnlyHears, StoreCause, HasRefused, HasNoMemory, IsOpening};
ghost use Rattle.session_hub.specs.Adding.{Adds, IsServing, IsOver, IsHeard, IsTurnedAway};

use crate::server::Server;
use crate::{Event, MAX_CONNECTIONS};
use op_read::directory::Dir;
use session_model::wire_io::{Heard, Link, NextFault};
use std::alloc::AllocError;

impl<D: Dir, L: Link> Server<'_, '_, D, L> {
    /// Begins with a connection that opens: it is held where there is room, and else hung up.
    fn greet(&mut self, conn: u32) -> Result<(), AllocError>
        ensures adds { Adds (IsHeard (event.Opened conn)) IsServing self.old result self.new }
        ensures hears { OnlyHears self.old self.new }
    {
        let has_room = self.hub.count() < MAX_CONNECTIONS;
        match self.hub.hear(self.dir, Event::Opened(conn)) {
            Err(_) => Err(AllocError),
            Ok(()) => {
                if has_room {
                    self.waiting.begin_with(conn);
                    Ok(())
                } else {
                    self.turn_away(conn)
                }
            }
        }
    }

    /// Hangs up a connection for which there is no room.
    fn turn_away(&mut self, conn: u32) -> Result<(), AllocError>
        ensures adds { Adds (IsTurnedAway conn) IsServing self.old result self.new }
        ensures serves { OnlyServes self.old self.new }
    {
        match self.link.hang_up(conn) {
            Err(_) => Err(AllocError),
            Ok(()) => {
                self.hub.drop_conn(conn);
                self.waiting.begin();
                Ok(())
            }
        }
    }

    /// Begins with what came on a connection.
    fn hear_on(&mut self, conn: u32, heard: Event<'_>) -> Result<(), AllocError>
        requires { IsOf conn heard }
        ensures adds { Adds (IsHeard (journal_event_of heard.entry)) IsServing self.old result self.new }
        ensures hears { OnlyHears self.old self.new }
        ensures never { OnErr result ⊥ }
    {
        match self.hub.hear(self.dir, heard) {
            Ok(()) => {
                self.waiting.begin_with(conn);
                Ok(())
            }
            Err(_) => Err(AllocError),
        }
    }

    /// Begins the block of an event that the link gave, whose octets stand at the front of the buffer.
    fn begin_block(&mut self, buffer: &[u8], heard: Heard) -> Result<(), AllocError>
        requires { HeardFits (length buffer.now) heard }
        ensures adds { Adds (IsHeard (event_of buffer.now heard)) IsServing self.old result self.new }
        ensures hears { OnlyHears self.old self.new }
        ensures opens { OnErr result (IsOpening heard) }
    {
        match heard {
            Heard::Opened(conn) => self.greet(conn),
            Heard::Bytes(conn, count) => {
                let piece = buffer.split_at(count).0;
                self.hear_on(conn, Event::Bytes(conn, piece))
            }
            Heard::Ended(conn) => self.hear_on(conn, Event::Ended(conn)),
            Heard::Ready(_) => {
                self.waiting.begin();
                Ok(())
            }
            Heard::Idle => {
                self.waiting.begin();
                Ok(())
            }
            Heard::Stop => {
                self.waiting.begin();
                Ok(())
            }
        }
    }

    /// Has the link store the changes that aren't stored yet, if there are any.
    fn store_changes(&mut self) -> Result<(), NextFault>
        ensures adds { Adds IsServing IsServing self.old result self.new }
        ensures stored { OnOk result (self.new.hub.unstored ≡ []) }
        ensures cause { StoreCause (self.old.hub.unstored ≢ []) (HasRefused self.old self.new) self.old result self.new }
        ensures stays { Stays self.old self.new }
    {
        let unstored = self.hub.unstored();
        if unstored.is_empty() {
            return Ok(());
        }
        match self.link.store(unstored) {
            Ok(()) => {
                self.hub.stored();
                Ok(())
            }
            Err(fault) => Err(fault),
        }
    }

    /// Ends a block: what changed is stored, and then whoever is due is served.
    fn end_block(&mut self) -> Result<(), NextFault>
        ensures adds { Adds IsServing IsOver self.old result self.new }
        ensures stored { OnOk result (self.new.hub.unstored ≡ []) }
        ensures cause { StoreCause (self.old.hub.unstored ≢ []) (HasRefused self.old self.new) self.old result self.new }
        ensures stays { Stays self.old self.new }
    {
        match self.store_changes() {
            Ok(()) => match self.settle_all() {
                Ok(()) => Ok(()),
                Err(_) => Err(NextFault::NoMemory),
            },
            Err(fault) => Err(fault),
        }
    }

    /// Serves an event that the link gave. With `Failed` what changed could not be stored, and nobody was served.
    pub fn serve_event(&mut self, buffer: &[u8], heard: Heard) -> Result<(), NextFault>
        requires stored { self.old.hub.unstored ≡ [] }
        requires fits { HeardFits (length buffer.now) heard }
        ensures adds { Adds (IsHeard (event_of buffer.now heard)) IsOver self.old result self.new }
        ensures stored { OnOk result (self.new.hub.unstored ≡ []) }
        ensures cause { StoreCause (self.old.hub.bounds.terms.keeps ≡ true) (HasNoMemory heard self.old self.new) self.old result self.new }
        ensures stays { Stays self.old self.new }
    {
        match self.begin_block(buffer, heard) {
            Ok(()) => self.end_block(),
            Err(_) => Err(NextFault::NoMemory),
        }
    }
}
