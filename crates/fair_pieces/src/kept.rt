//! What is kept of a peer's octets behind a cut.

ghost use Rattle.std.specs.Prelude.{◌≡◌, ◌≤◌, ◌==◌, [], length, take, drop, min, IfOk, OnErr};
ghost use Rattle.fair_pieces.specs.Cuts.{cut_at};
ghost use Rattle.fair_pieces.specs.Keeping.{seen_cut, behind_cut};

use crate::cuts::cut_at;
use std::alloc::{AllocError, Global};
use std::marker::Model;

/// The octets of a peer that came and weren't given yet, and how many octets are still to come of a
/// message that was given in part.
#[derive(Drop)]
pub struct Kept {
    octets: Vec<u8>,
    // how many of them were given
    from: usize,
    left: usize,
}

impl Model for Kept {
    ghost use Rattle.std.specs.Prelude.{◌≤◌, length, drop};
    ghost use Rattle.fair_pieces.specs.Keeping.{KeptState};

    ghost Value = { KeptState };

    ghost view = { λ kept. record { octets = drop kept.from kept.octets.items; left = kept.left } };

    ghost invariant = { λ kept. kept.from ≤ length kept.octets.items };
}

impl Kept {
    /// Nothing is kept, and nothing was given in part. Takes no memory.
    pub fn new(alloc: Global) -> Kept
        ensures none { result.octets ≡ [] }
        ensures left { result.left ≡ 0 }
    {
        Kept {
            octets: Vec::new(alloc),
            from: 0,
            left: 0,
        }
    }

    /// The octets that are kept.
    pub fn octets(&self) -> &[u8]
        ensures { result.now ≡ self.now.octets }
    {
        self.octets.split_at(self.from).1
    }

    /// Whether nothing of the kept octets can be given before others come: there are none, or they are
    /// the front of a header, at most five.
    pub fn is_waiting(&self) -> bool
        ensures { result ≡ ((cut_at self.now.left self.now.octets).given == 0) }
    {
        let octets = self.octets();
        if octets.len() > 5 {
            return false;
        }
        cut_at(self.left, octets).given == 0
    }

    /// Copies as many of the kept octets as the buffer has room for to its front, and says how many. They
    /// stay kept.
    pub fn copy(&self, buf: &mut [u8]) -> usize
        ensures count { result ≡ min (length self.now.octets) (length buf.old) }
        ensures exact { take result buf.new ≡ take result self.now.octets }
    {
        let octets = self.octets();
        let count = octets.len().min(buf.len());
        buf.split_at_mut(count)
            .0
            .copy_from_slice(octets.split_at(count).0);
        count
    }

    /// Passes over the first of the kept octets, and gives their memory back where none is left.
    fn pass(&mut self, count: usize)
        requires { count ≤ length self.old.octets }
        ensures { self.new ≡ record self.old { octets = drop count self.old.octets } }
    {
        self.from += count;
        if self.from == self.octets.len() {
            self.forget();
        }
    }

    /// Keeps no octet any more, and gives their memory back.
    pub fn forget(&mut self)
        ensures { self.new ≡ record self.old { octets = [] } }
    {
        self.octets.clear();
        self.octets.shrink_to(0);
        self.from = 0;
    }

    /// Gives at once what the cut gives of as many of the kept octets as the buffer has room for: they
    /// stand at its front. The others stay kept. Takes no memory.
    pub fn give(&mut self, buf: &mut [u8]) -> usize
        ensures exact { result ≡ (seen_cut self.old (length buf.old)).given }
        ensures front { take result buf.new ≡ take result self.old.octets }
        ensures kept { self.new ≡ record { octets = drop result self.old.octets; left = (seen_cut self.old (length buf.old)).left } }
        ensures within { result ≤ length buf.old }
    {
        let seen = self.copy(buf);
        let cut = cut_at(self.left, buf.split_at(seen).0);
        self.pass(cut.given);
        self.left = cut.left;
        cut.given
    }

    /// Gives at once what the cut gives of octets that were read, of which the kept ones are the front, and
    /// says how many of them that are; the others are kept, in place of those that were. Want of memory
    /// is the one error: then nothing is kept.
    pub fn keep(&mut self, octets: &[u8]) -> Result<usize, AllocError>
        ensures exact { IfOk result (λ given. given ≡ (cut_at self.old.left octets.now).given) }
        ensures kept { IfOk result (λ given. self.new ≡ behind_cut self.old.left octets.now) }
        ensures within { IfOk result (λ given. given ≤ length octets.now) }
        ensures err { OnErr result (self.new.octets ≡ []) }
    {
        let cut = cut_at(self.left, octets);
        self.forget();
        self.octets.extend_from_slice(octets.split_at(cut.given).1)?;
        self.left = cut.left;
        Ok(cut.given)
    }
}
