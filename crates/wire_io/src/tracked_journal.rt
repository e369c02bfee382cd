//! The journal that a link keeps, with what it says of each connection.

ghost use Rattle.std.specs.Prelude.{◌≡◌, ◌<◌, [], ◌∷◌, ◌++◌, length, slice_get, IfOk, OnOk, OnErr, vec_len, vec_capacity};
ghost use Rattle.wire_io.specs.Answers.{HeardFits};
ghost use Rattle.wire_io.specs.Log.{IsQuietNote, item_of};
ghost use Rattle.wire_io.specs.Journal.{is_on_hold, is_hung_up, opened_by, taken_of};
ghost use Rattle.wire_io.specs.Peers.{IsQuiet};
ghost use Rattle.wire_io.specs.Rising.{rising};
ghost use Rattle.wire_io.specs.link.Telling.{event_of};

use crate::log::{Log, Note};
use crate::peers::{Peer, add_peer, set_hung_up, set_on_hold, take};
use crate::rising::{in_order, number_at};
use crate::{Event, Heard, Item};
use plain_values::Text;
use script_text::EventKind;
use std::alloc::{AllocError, Global};
use std::collections::BTreeMap;
use std::marker::Model;

/// A journal. Contracts see the list of its items.
#[derive(Debug, Drop)]
pub(crate) struct TrackedJournal {
    alloc: Global,
    log: Log,
    peers: BTreeMap<u32, Peer>,
    opened: Vec<u32>,
    // whether any connection was put on hold so far
    held: bool,
}

impl Model for TrackedJournal {
    ghost use Rattle.std.specs.Prelude.{List};
    ghost use Rattle.wire_io.specs.declared.journal.Item.{Item};
    ghost use Rattle.wire_io.specs.Peers.{IsTracked};

    ghost Value = { List Item };

    ghost view = { λ journal. journal.log.items };

    ghost invariant = { λ journal. IsTracked journal.log.items journal.peers journal.opened.items journal.held };
}

impl TrackedJournal {
    /// Nothing was done yet. Takes no memory.
    pub(crate) fn new(alloc: Global) -> TrackedJournal
        ensures exact { result ≡ [] }
    {
        TrackedJournal {
            alloc,
            log: Log::new(alloc),
            peers: BTreeMap::new(alloc),
            opened: Vec::new(alloc),
            held: false,
        }
    }

    /// The octets taken for the connection.
    pub(crate) fn said_of(&self, conn: u32) -> &[u8]
        ensures exact { result.now ≡ taken_of conn self.now }
    {
        match self.peers.get(&conn) {
            Some(peer) => peer.taken.as_slice(),
            None => &[],
        }
    }

    /// Whether the connection was hung up.
    pub(crate) fn hung_up(&self, conn: u32) -> bool
        ensures exact { result ≡ is_hung_up conn self.now }
    {
        match self.peers.get(&conn) {
            Some(peer) => peer.hung_up,
            None => false,
        }
    }

    /// Whether the connection is on hold.
    pub(crate) fn on_hold(&self, conn: u32) -> bool
        ensures exact { result ≡ is_on_hold conn self.now }
    {
        if !self.held {
            return false;
        }
        match self.peers.get(&conn) {
            Some(peer) => peer.on_hold,
            None => false,
        }
    }

    /// The number at the index, from 0, of those that events opened, in rising order.
    pub(crate) fn opened_at(&self, index: usize) -> Option<u32>
        ensures exact { result ≡ slice_get (rising (opened_by self.now)) index }
    {
        number_at(self.opened.as_slice(), index)
    }

    /// The numbers that events opened, in rising order.
    pub(crate) fn numbers(&self) -> Result<Vec<u32>, AllocError>
        ensures ok { IfOk result (λ numbers. numbers.items ≡ rising (opened_by self.now)) }
    {
        in_order(self.alloc, self.opened.as_slice())
    }

    /// The octets were taken for the connection.
    pub(crate) fn take(&mut self, conn: u32, octets: &[u8]) -> Result<(), AllocError>
        ensures ok { OnOk result (self.new ≡ self.old ++ Item.Taken conn octets.now ∷ []) }
        ensures err { OnErr result (self.new ≡ self.old) }
    {
        self.log.reserve(octets.len())?;
        take(self.alloc, &mut self.peers, conn, octets)?;
        self.log.put(Note::Taken, conn, octets);
        Ok(())
    }

    /// The connection was put on hold.
    pub(crate) fn hold(&mut self, conn: u32) -> Result<(), AllocError>
        ensures ok { OnOk result (self.new ≡ self.old ++ Item.Held conn ∷ []) }
        ensures err { OnErr result (self.new ≡ self.old) }
    {
        self.log.reserve(0)?;
        add_peer(self.alloc, &mut self.peers, conn)?;
        set_on_hold(&mut self.peers, conn, true);
        self.held = true;
        self.log.put(Note::Held, conn, &[]);
        Ok(())
    }

    /// The connection was released from its hold.
    pub(crate) fn release(&mut self, conn: u32) -> Result<(), AllocError>
        ensures ok { OnOk result (self.new ≡ self.old ++ Item.Released conn ∷ []) }
        ensures err { OnErr result (self.new ≡ self.old) }
    {
        self.log.reserve(0)?;
        add_peer(self.alloc, &mut self.peers, conn)?;
        set_on_hold(&mut self.peers, conn, false);
        self.log.put(Note::Released, conn, &[]);
        Ok(())
    }

    /// The connection was hung up.
    pub(crate) fn hang_up(&mut self, conn: u32) -> Result<(), AllocError>
        ensures ok { OnOk result (self.new ≡ self.old ++ Item.HungUp conn ∷ []) }
        ensures err { OnErr result (self.new ≡ self.old) }
    {
        self.log.reserve(0)?;
        add_peer(self.alloc, &mut self.peers, conn)?;
        set_hung_up(&mut self.peers, conn);
        self.log.put(Note::HungUp, conn, &[]);
        Ok(())
    }

    /// The connection was opened.
    pub(crate) fn opened(&mut self, conn: u32) -> Result<(), AllocError>
        ensures ok { OnOk result (self.new ≡ self.old ++ Item.Heard (Event.Opened conn) ∷ []) }
        ensures err { OnErr result (self.new ≡ self.old) }
    {
        self.log.reserve(0)?;
        self.opened.push(conn)?;
        self.log.put(Note::Came(EventKind::Opened), conn, &[]);
        Ok(())
    }

    /// An item that says nothing of what was opened, taken, held or hung up, with its octets.
    pub(crate) fn note(&mut self, note: Note, conn: u32, octets: &[u8]) -> Result<(), AllocError>
        requires { IsQuietNote note }
        ensures ok { OnOk result (self.new ≡ self.old ++ item_of note conn octets.now) }
        ensures err { OnErr result (self.new ≡ self.old) }
    {
        self.log.reserve(octets.len())?;
        self.log.put(note, conn, octets);
        Ok(())
    }

    /// Such an item, which is kept apart.
    fn note_apart(&mut self, item: Item) -> Result<(), AllocError>
        requires { IsQuiet item }
        ensures ok { OnOk result (self.new ≡ self.old ++ item ∷ []) }
        ensures err { OnErr result (self.new ≡ self.old) }
    {
        self.log.put_apart(item)?;
        Ok(())
    }

    /// The address was to be opened.
    pub(crate) fn open(
        &mut self,
        address: &str,
        sessions: u64,
        done: bool,
    ) -> Result<(), AllocError>
        ensures ok { OnOk result (self.new ≡ self.old ++ Item.OpenedAt address.now sessions done ∷ []) }
        ensures err { OnErr result (self.new ≡ self.old) }
    {
        let address = Text::from_string(String::from_str(self.alloc, address)?);
        self.note_apart(Item::OpenedAt(address, sessions, done))
    }

    /// The store was to be opened.
    pub(crate) fn open_store(&mut self, name: &str, done: bool) -> Result<(), AllocError>
        ensures ok { OnOk result (self.new ≡ self.old ++ Item.StoreOpened name.now done ∷ []) }
        ensures err { OnErr result (self.new ≡ self.old) }
    {
        let name = Text::from_string(String::from_str(self.alloc, name)?);
        self.note_apart(Item::StoreOpened(name, done))
    }

    /// The store was cut.
    pub(crate) fn cut_store(&mut self, length: u64) -> Result<(), AllocError>
        ensures ok { OnOk result (self.new ≡ self.old ++ Item.StoreCut length ∷ []) }
        ensures err { OnErr result (self.new ≡ self.old) }
    {
        self.note_apart(Item::StoreCut(length))
    }

    #[tactic(auto, unfolding(crate::specs::link::Telling::event_of))]
    /// The event was heard, with octets at the front of the buffer.
    pub(crate) fn hear(&mut self, heard: Heard, buf: &[u8]) -> Result<(), AllocError>
        requires { HeardFits (length buf.now) heard }
        ensures ok { OnOk result (self.new ≡ self.old ++ Item.Heard (event_of buf.now heard) ∷ []) }
        ensures err { OnErr result (self.new ≡ self.old) }
    {
        match heard {
            Heard::Opened(conn) => self.opened(conn),
            Heard::Bytes(conn, count) => {
                self.note(Note::Came(EventKind::Bytes), conn, buf.split_at(count).0)
            }
            Heard::Ended(conn) => self.note(Note::Came(EventKind::Ended), conn, &[]),
            Heard::Ready(conn) => self.note(Note::Ready, conn, &[]),
            Heard::Idle => self.note_apart(Item::Heard(Event::Idle)),
            Heard::Stop => self.note_apart(Item::Heard(Event::Stop)),
        }
    }
}
