//! Whose turn it is to be asked.

ghost use Rattle.std.specs.Prelude.{◌≡◌, ◌≢◌, ◌↔◌, ℕ, ◌+◌, ◌<◌, true, false, IfSome};
ghost use Rattle.mio_link.specs.Places.{has};
ghost use Rattle.mio_link.specs.Turns.{AreBelow, Gives, IsEmpty};

use crate::ready::Ready;

/// The places that are to be asked, in turn, and the place behind the one that was asked last.
#[derive(Drop)]
pub(crate) struct Turns {
    ready: Ready,
    cursor: usize,
}

impl Turns {
    /// No place is to be asked.
    pub(crate) fn new() -> Turns {
        Turns {
            ready: Ready::new(),
            cursor: 0,
        }
    }

    /// Has the place asked, if it is below 320.
    pub(crate) fn add(&mut self, place: usize)
        ensures added { place < 320 → has self.new.ready place ≡ true }
        ensures others { (other : ℕ) → other ≢ place → has self.new.ready other ≡ has self.old.ready other }
        ensures cursor { self.new.cursor ≡ self.old.cursor }
    {
        self.ready.add(place);
    }

    /// Has the place asked no more.
    pub(crate) fn remove(&mut self, place: usize)
        ensures removed { has self.new.ready place ≡ false }
        ensures others { (other : ℕ) → other ≢ place → has self.new.ready other ≡ has self.old.ready other }
        ensures cursor { self.new.cursor ≡ self.old.cursor }
    {
        self.ready.remove(place);
    }

    /// Whether no place is to be asked.
    pub(crate) fn is_empty(&self) -> bool
        ensures { (result ≡ true) ↔ IsEmpty (has self.now.ready) }
    {
        self.ready.next(0).is_none()
    }

    /// Whose turn it is: the first place that isn't below the cursor, and where there is none the first of
    /// all. It stays to be asked.
    pub(crate) fn take(&mut self) -> Option<usize>
        ensures exact { Gives (has self.old.ready) self.old.cursor result }
        ensures cursor { IfSome result (λ place. self.new.cursor ≡ place + 1) }
        ensures ready { self.new.ready ≡ self.old.ready }
        ensures few { AreBelow 320 (has self.old.ready) }
    {
        let place = self.ready.next(self.cursor)?;
        self.cursor = place + 1;
        Some(place)
    }
}
