//! Which places are to be asked.

ghost use Rattle.std.specs.Prelude.{◌≡◌, ◌≢◌, ℕ, ◌/◌, ◌%◌, true, false, ◌<◌, ◌≤◌, IfSome, MatchOption};
ghost use Rattle.std.specs.Int.{bit_at};
ghost use Rattle.mio_link.specs.Places.{has, bit_of};
ghost use Rattle.mio_link.specs.Turns.{AreBelow, AreOut, IsFirst, Gives};

use crate::bits::{from_bit, lowest_bit, with_bit, without_bit};

/// How many words of 64 places there are.
const WORDS: usize = 5;

/// How many places there may be.
const MOST: usize = 320;

/// Places, a bit for each.
#[derive(Drop)]
pub(crate) struct Ready {
    words: [u64; WORDS],
}

impl Ready {
    /// No place.
    pub(crate) fn new() -> Ready
        ensures none { (place : ℕ) → has result place ≡ false }
    {
        Ready { words: [0; WORDS] }
    }

    /// Adds a place, if it is below 320.
    pub(crate) fn add(&mut self, place: usize)
        ensures added { place < 320 → has self.new place ≡ true }
        ensures others { (other : ℕ) → other ≢ place → has self.new other ≡ has self.old other }
    {
        if place < MOST {
            let word = self.words[place / 64];
            self.words[place / 64] = with_bit(word, place % 64);
        }
    }

    /// Takes a place away.
    pub(crate) fn remove(&mut self, place: usize)
        ensures removed { has self.new place ≡ false }
        ensures others { (other : ℕ) → other ≢ place → has self.new other ≡ has self.old other }
    {
        if place < MOST {
            let word = self.words[place / 64];
            self.words[place / 64] = without_bit(word, place % 64);
        }
    }

    /// The first of the places that isn't below this one; where there is none, the first of all.
    pub(crate) fn next(&self, from: usize) -> Option<usize>
        ensures exact { Gives (has self.now) from result }
        ensures few { AreBelow 320 (has self.now) }
        ensures within { IfSome result (λ place. place < 320) }
    {
        match self.first(from) {
            Some(place) => Some(place),
            None => self.first(0),
        }
    }

    /// The first of the places that isn't below this one.
    fn first(&self, from: usize) -> Option<usize>
        ensures exact { MatchOption result (AreOut (has self.now) from) (IsFirst (has self.now) from) }
        ensures within { IfSome result (λ place. place < 320) }
    {
        for index in from / 64..WORDS {
            let left = self.not_below(index, from);
            if left != 0 {
                return Some(index * 64 + lowest_bit(left));
            }
        }
        None
    }

    /// The word of this index, without the bits of places below this one.
    fn not_below(&self, index: usize, from: usize) -> u64
        requires within { index < 5 }
        requires reached { from / 64 ≤ index }
        ensures exact { (other : ℕ) → other / 64 ≡ index → from ≤ other → bit_at result (other % 64) ≡ bit_of self.now.words other }
        ensures below { (other : ℕ) → other / 64 ≡ index → other < from → bit_at result (other % 64) ≡ 0 }
    {
        let word = self.words[index];
        if index == from / 64 {
            from_bit(word, from % 64)
        } else {
            word
        }
    }
}
