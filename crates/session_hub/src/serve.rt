//! The loop over a link.

ghost use Rattle.std.specs.Prelude.{◌≡◌, [], true, IfOk, IfNone, IfSome, length, vec_len};
ghost use Rattle.dir_tree.specs.tree.Numbered.{entries_of};
ghost use Rattle.dir_tree.specs.plain_values.Counts.{NeverFalls};
ghost use Rattle.session_hub.specs.hub.Hubs.{no_hub};
ghost use Rattle.session_hub.specs.Adding.{stops_with};
ghost use Rattle.session_hub.specs.serve.Servers.{Stays, StoreCause, HasRefused};
ghost use Rattle.session_hub.specs.serve.Loops.{buffer_length, Serves, ServesTwins, Starves, PlaysOut, EndsFor, ends_with};
ghost use Rattle.session_hub.specs.serve.Turns.{GoesOn, EndsWith, HasEnded};

use crate::server::Server;
use crate::waiting::Waiting;
use crate::{Bounds, Ended, Hub};
use op_read::directory::Dir;
use session_model::wire_io::{Heard, Link, NextFault};
use std::alloc::{AllocError, Global};

/// The length of the buffer into which the link puts octets.
pub const BUFFER_LENGTH: usize = 65_536;

fn is_stop(heard: Heard) -> bool
    ensures { result ≡ stops_with heard }
{
    matches!(heard, Heard::Stop)
}

/// A buffer of the loop's length.
fn new_buffer(alloc: Global) -> Result<Vec<u8>, AllocError>
    ensures { IfOk result (λ buffer. vec_len buffer ≡ buffer_length) }
{
    vec![in alloc; 0; BUFFER_LENGTH]
}

impl<D: Dir, L: Link> Server<'_, '_, D, L> {
    /// How a loop ends: as one that had no memory where a connection was cut.
    fn end_of(&self, ended: Ended) -> Ended
        ensures { result ≡ ends_with self.now.hub.was_cut ended }
    {
        if self.hub.was_cut() {
            Ended::NoMemory
        } else {
            ended
        }
    }

    /// Has the link see to it that what was stored is on the disk, where changes are kept.
    fn sync_changes(&mut self) -> Result<(), NextFault>
        ensures kept { self.new ≡ record self.old { link = self.new.link } }
        ensures tells { self.new.link.journal ≡ self.old.link.journal }
        ensures cause { StoreCause (self.old.hub.bounds.terms.keeps ≡ true) (HasRefused self.old self.new) self.old result self.new }
        ensures stays { Stays self.old self.new }
    {
        if self.hub.keeps() {
            self.link.sync_store()
        } else {
            Ok(())
        }
    }

    /// Hears and serves the next event.
    fn hear_next(&mut self, buffer: &mut [u8]) -> Option<Ended>
        requires stored { self.old.hub.unstored ≡ [] }
        requires long { length buffer.old ≡ buffer_length }
        ensures none { IfNone result (GoesOn self.old self.new) }
        ensures some { IfSome result (λ ended. EndsWith self.old ended self.new) }
    {
        match self.link.next(buffer) {
            Err(NextFault::Failed) => Some(self.end_of(Ended::LinkFault)),
            Err(NextFault::NoMemory) => Some(Ended::NoMemory),
            Ok(heard) => match self.serve_event(buffer, heard) {
                Err(NextFault::Failed) => Some(Ended::StoreFault),
                Err(NextFault::NoMemory) => Some(Ended::NoMemory),
                Ok(()) => {
                    if is_stop(heard) {
                        Some(self.end_of(Ended::Stopped))
                    } else {
                        None
                    }
                }
            },
        }
    }

    /// Takes one turn of the loop: the next event is heard and served, once what was stored is on the disk or waits
    /// for more, and the loop may end with it.
    fn take_turn(&mut self, buffer: &mut [u8]) -> Option<Ended>
        requires stored { self.old.hub.unstored ≡ [] }
        requires long { length buffer.old ≡ buffer_length }
        ensures none { IfNone result (GoesOn self.old self.new) }
        ensures some { IfSome result (λ ended. EndsWith self.old ended self.new) }
    {
        match self.sync_changes() {
            Ok(()) => self.hear_next(buffer),
            Err(NextFault::Failed) => Some(Ended::StoreFault),
            Err(NextFault::NoMemory) => Some(Ended::NoMemory),
        }
    }

    /// Serves the link with a buffer, where nothing is held yet.
    fn serve(&mut self, buffer: &mut [u8], turns: u64) -> Ended
        requires empty { self.old.hub ≡ no_hub self.old.hub.bounds }
        requires free { self.old.on_hold ≡ [] }
        requires long { length buffer.old ≡ buffer_length }
        ensures { HasEnded self.old turns result self.new }
    {
        for _turn in 0..turns {
            match self.take_turn(buffer) {
                None => {}
                Some(ended) => return ended,
            }
        }
        self.end_of(Ended::TurnsSpent)
    }
}

/// Serves a link's connections over a directory until it gives Stop or so many events were heard,
/// and says why it ended (RFC 4511 5.3). Where the link tells its journal, the journal then serves
/// them: nothing is sent but replies, nothing is left unsent but to connections that take no more
/// now and are on hold, and each connection is hung up in its own block; the directory's entries are
/// those that the journal's steps leave. A search is answered within the bounds' limit. Where the bounds'
/// terms say so, the record of each accepted change is stored before any reply is taken that may show it, and
/// before each event the link is asked to have what was stored on the disk.
/// With `NoMemory` connections may have been cut, for want of memory or since more waited for them than the
/// bounds have room for, each once, and the last block may be unfinished; it comes only before the first event,
/// where a connection opened last, where one was cut, or where the link refused a call for want of memory, which
/// its count of refusals shows. `LinkFault` says that the link failed to give an event, which its count of faults
/// shows, and `StoreFault` that it failed to store changes or to have them on the disk, which the count of its
/// store's faults shows; the last block may then be unfinished. Where nothing was cut the journal serves twins of
/// the directory too.
pub fn serve_loop<D: Dir, L: Link>(
    alloc: Global,
    dir: &mut D,
    link: &mut L,
    turns: u64,
    bounds: Bounds,
) -> Ended
    ensures served { Serves bounds.terms (entries_of (D.rows dir.old)) (entries_of (D.rows dir.new))
        turns (L.journal link.old) result (L.journal link.new) }
    ensures twins { ServesTwins bounds.terms (entries_of (D.rows dir.old)) (L.journal link.old) result (L.journal link.new) }
    ensures plays { PlaysOut turns (L.journal link.old) (L.plan link.old) result (L.journal link.new) (L.plan link.new) }
    ensures cause { EndsFor bounds.terms.keeps (L.plan link.old) (L.faults link.old) (L.faults link.new)
        (L.store_faults link.old) (L.store_faults link.new) result }
    ensures memory { Starves bounds.terms (entries_of (D.rows dir.old)) (entries_of (D.rows dir.new))
        (L.journal link.old) (L.refusals link.old) result (L.journal link.new) (L.refusals link.new) }
    ensures refusals { NeverFalls (L.refusals link.old) (L.refusals link.new) }
    ensures lost { NeverFalls (L.lost link.old) (L.lost link.new) }
{
    let Ok(hub) = Hub::new(alloc, bounds) else {
        return Ended::NoMemory;
    };
    let Ok(waiting) = Waiting::new(alloc) else {
        return Ended::NoMemory;
    };
    let Ok(mut buffer) = new_buffer(alloc) else {
        return Ended::NoMemory;
    };
    let mut server = Server {
        hub,
        waiting,
        dir,
        link,
    };
    let ended = server.serve(buffer.as_mut_slice(), turns);
    // what was lent is as the server leaves it
    let Server {
        hub: _hub,
        waiting: _waiting,
        dir,
        link,
    } = server;
    let _dir = &*dir;
    let _link = &*link;
    ended
}
