//! The items of a journal in little memory: a row for each, and the octets of all in one piece.

ghost use Rattle.std.specs.Prelude.{◌≡◌, ◌<◌, ◌≤◌, ◌++◌, ◌∷◌, [], length, OnOk, OnErr};
ghost use Rattle.wire_io.specs.Log.{apart_in, item_of};

use crate::Item;
use script_text::EventKind;
use std::alloc::{AllocError, Global};
use std::marker::Model;

/// What an item is, without its connection and its octets.
#[derive(Clone, Copy, Debug)]
pub(crate) enum Note {
    // an event of a script
    Came(EventKind),
    Ready,
    Taken,
    Later,
    Gone,
    Held,
    Released,
    HungUp,
    // the row's connection is 0
    Stored,
    // the item is kept apart, and the row's connection is 0
    Apart,
}

/// A note, the connection of its item, and how many octets that has.
#[derive(Clone, Copy, Debug)]
pub(crate) struct NoteRow {
    pub(crate) note: Note,
    pub(crate) conn: u32,
    pub(crate) size: usize,
}

/// Items in their order. Contracts see the list of them, and for how many rows and octets more there
/// is room.
#[derive(Debug, Drop)]
pub(crate) struct Log {
    rows: Vec<NoteRow>,
    octets: Vec<u8>,
    apart: Vec<Item>,
}

impl Model for Log {
    ghost use Rattle.std.specs.Prelude.{◌-◌, vec_len, vec_capacity};
    ghost use Rattle.wire_io.specs.Log.{LogState, IsPacked, items_from};

    ghost Value = { LogState };

    ghost view = { λ log. record { items = items_from log.rows.items log.octets.items log.apart.items; spare_rows = vec_capacity log.rows - vec_len log.rows; spare_octets = vec_capacity log.octets - vec_len log.octets } };

    ghost invariant = { λ log. IsPacked log.rows.items log.octets.items log.apart.items };
}

impl Log {
    /// No items. Takes no memory.
    pub(crate) fn new(alloc: Global) -> Log
        ensures empty { result.items ≡ [] }
    {
        Log {
            rows: Vec::new(alloc),
            octets: Vec::new(alloc),
            apart: Vec::new(alloc),
        }
    }

    /// Makes room for one more item, with so many octets.
    pub(crate) fn reserve(&mut self, size: usize) -> Result<(), AllocError>
        ensures rows { OnOk result (0 < self.new.spare_rows) }
        ensures octets { OnOk result (size ≤ self.new.spare_octets) }
        ensures kept { self.new.items ≡ self.old.items }
    {
        self.rows.reserve(1)?;
        self.octets.reserve(size)?;
        Ok(())
    }

    /// Adds the item of the note with the octets, for which there is room.
    pub(crate) fn put(&mut self, note: Note, conn: u32, octets: &[u8])
        requires rows { 0 < self.old.spare_rows }
        requires octets { length octets.now ≤ self.old.spare_octets }
        requires whole { apart_in note ≡ 0 }
        ensures exact { self.new.items ≡ self.old.items ++ item_of note conn octets.now }
    {
        let size = octets.len();
        self.octets.extend_from_slice(octets).unwrap();
        self.rows.push(NoteRow { note, conn, size }).unwrap();
    }

    /// Adds an item that is kept apart. The error comes for want of memory alone.
    pub(crate) fn put_apart(&mut self, item: Item) -> Result<(), AllocError>
        ensures ok { OnOk result (self.new.items ≡ self.old.items ++ item ∷ []) }
        ensures err { OnErr result (self.new.items ≡ self.old.items) }
    {
        self.rows.reserve(1)?;
        self.apart.push(item)?;
        let (note, conn, size) = (Note::Apart, 0, 0);
        self.rows.push(NoteRow { note, conn, size }).unwrap();
        Ok(())
    }
}
