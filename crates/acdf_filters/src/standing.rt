//! The running state of a decision.

ghost use Rattle.std.specs.Prelude.{◌≡◌};
ghost use Rattle.acdf_filters.specs.Standing.{initial, with_like, with_item, with_class, with_one};
ghost use Rattle.acdf_filters.specs.weighing.Weighing.{is_granted};

/// What of the tuples that were weighed so far decides: those of the highest precedence, of these those of the most
/// specific user class, and of these those that name the item explicitly, if any does.
#[derive(Clone, Copy, PartialEq, Eq, Debug)]
pub struct Standing {
    /// There is such a tuple.
    pub filled: bool,
    /// Their precedence, at most 255; 0 where there is none.
    pub precedence: u8,
    /// How specific their user class is: 0 for name and thisEntry, 1 for userGroup, 2 for subtree, 3 for allUsers; 3 where
    /// there is none.
    pub rank: u8,
    /// They name the item explicitly.
    pub explicit: bool,
    /// All of them grant.
    pub grants: bool,
}

impl Standing {
    /// The state before any tuple was weighed.
    pub fn new() -> Standing
        ensures exact { result ≡ initial }
    {
        Standing {
            filled: false,
            precedence: 0,
            rank: 3,
            explicit: false,
            grants: true,
        }
    }

    /// The state with one more tuple, that of the tuple alone being `one`.
    pub fn with_one(self, one: Standing) -> Standing
        ensures exact { result ≡ with_one one self }
    {
        if self.precedence < one.precedence {
            one
        } else if one.precedence < self.precedence {
            self
        } else {
            self.with_class(one)
        }
    }

    // The same of one of the same precedence.
    fn with_class(self, one: Standing) -> Standing
        ensures exact { result ≡ with_class one self }
    {
        if one.rank < self.rank {
            one
        } else if self.rank < one.rank {
            self
        } else {
            self.with_item(one)
        }
    }

    // The same of one of the same precedence and user class.
    fn with_item(self, one: Standing) -> Standing
        ensures exact { result ≡ with_item one self }
    {
        if one.explicit == self.explicit {
            self.with_like(one)
        } else if one.explicit {
            one
        } else {
            self
        }
    }

    // The same of one that is like those seen.
    fn with_like(self, one: Standing) -> Standing
        ensures exact { result ≡ with_like one self }
    {
        Standing {
            grants: self.grants && one.grants,
            ..one
        }
    }

    /// Access is granted: at least one tuple is left, and all that are left grant.
    pub fn is_granted(self) -> bool
        ensures exact { result ≡ is_granted self }
    {
        self.filled && self.grants
    }
}
