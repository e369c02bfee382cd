//! The connections that a loop has on hold, and those that are still due in a block.

ghost use Rattle.std.specs.Prelude.{◌≡◌, ◌<◌, ◌≤◌, true, false, [], ◌∷◌, length, nat_eq, IfOk, vec_capacity};
ghost use Rattle.std.specs.List.{IsDistinct};
ghost use Rattle.std.proofs.lemmas.Map.Keys.{IsDistinct-prop};
ghost use Rattle.session_model.specs.Run.{most_held};
ghost use Rattle.session_model.specs.Keeping.{is_listed};
ghost use Rattle.session_model.specs.Working.{Puts, Covers};
ghost use Rattle.session_hub.specs.Waits.{TakesDue};

use crate::MAX_CONNECTIONS;
use std::alloc::{AllocError, Global};

/// Lists of connections, by their numbers. Their room is taken once: nobody is on hold twice, no more are than may be
/// held, and no more are due than these and one.
#[derive(Debug, Drop)]
pub struct Waiting {
    pub on_hold: Vec<u32>,
    pub due: Vec<u32>,
    ghost once: { IsDistinct nat_eq on_hold.items } by { IsDistinct-prop nat_eq on_hold.items },
    ghost few: { length on_hold.items ≤ most_held },
    ghost places: { most_held < vec_capacity on_hold },
    ghost room: { most_held < vec_capacity due },
}

impl Waiting {
    /// Lists without a connection, with room for all that are held and one more.
    pub fn new(alloc: Global) -> Result<Waiting, AllocError>
        ensures on_hold { IfOk result (λ waiting. waiting.on_hold.items ≡ []) }
        ensures due { IfOk result (λ waiting. waiting.due.items ≡ []) }
    {
        Ok(Waiting {
            on_hold: Vec::with_capacity(alloc, MAX_CONNECTIONS + 1)?,
            due: Vec::with_capacity(alloc, MAX_CONNECTIONS + 1)?,
        })
    }

    pub fn is_on_hold(&self, conn: u32) -> bool
        ensures { result ≡ is_listed conn self.now.on_hold.items }
    {
        self.on_hold.iter().any(|other| conn == *other)
    }

    /// Puts a connection on hold that isn't, where fewer are than may be held, and else does nothing. Takes no memory.
    pub fn hold(&mut self, conn: u32)
        requires { is_listed conn self.old.on_hold.items ≡ false }
        ensures held { length self.old.on_hold.items < most_held → Puts conn true self.old.on_hold.items self.new.on_hold.items }
        ensures due { self.new.due.items ≡ self.old.due.items }
    {
        if self.on_hold.len() < MAX_CONNECTIONS {
            self.on_hold.push(conn).unwrap();
        }
    }

    /// Puts a connection on hold no more.
    pub fn release(&mut self, conn: u32)
        ensures released { Puts conn false self.old.on_hold.items self.new.on_hold.items }
        ensures due { self.new.due.items ≡ self.old.due.items }
    {
        self.on_hold.retain(|other| conn != *other);
    }

    /// Begins a block in which all that are on hold are due. Takes no memory.
    pub fn begin(&mut self)
        ensures due { self.new.due.items ≡ self.old.on_hold.items }
        ensures on_hold { self.new.on_hold.items ≡ self.old.on_hold.items }
    {
        self.due.clear();
        self.due.extend_from_slice(&self.on_hold).unwrap();
    }

    /// The same with a connection, which is due once, and first.
    pub fn begin_with(&mut self, conn: u32)
        ensures covers { Covers self.new.due.items (conn ∷ self.old.on_hold.items) }
        ensures on_hold { self.new.on_hold.items ≡ self.old.on_hold.items }
    {
        self.begin();
        if !self.is_on_hold(conn) {
            self.due.push(conn).unwrap();
        }
    }

    /// The next that is due, which then isn't any more.
    pub fn next_due(&mut self) -> Option<u32>
        ensures due { TakesDue result self.old.due.items self.new.due.items }
        ensures on_hold { self.new.on_hold.items ≡ self.old.on_hold.items }
    {
        self.due.pop()
    }
}
