//! Authentication levels.

ghost use Rattle.std.specs.Prelude.{◌≡◌, find, nat_lt};
ghost use Rattle.std.specs.Str.{bytes_eq};
ghost use Rattle.aci_item.specs.Level.{levels, rank_of};
ghost use Rattle.aci_item.specs.ItemPrinted.{level_name};

/// How a requester is authenticated (X.501 18.4.2.3), the weakest first.
#[derive(Clone, Copy, PartialEq, Eq, PartialOrd, Ord, Debug, Drop)]
pub enum Level {
    /// Not at all: the level `none`.
    Anyone,
    /// By a name and a password.
    Simple,
    /// By a certificate.
    Strong,
}

impl Level {
    // Its place in the order of levels.
    fn rank(self) -> u8
        ensures exact { result ≡ rank_of self }
    {
        match self {
            Level::Anyone => 0,
            Level::Simple => 1,
            Level::Strong => 2,
        }
    }

    /// Whether the level is stronger than the other one.
    pub fn is_above(self, other: Level) -> bool
        ensures exact { result ≡ nat_lt (rank_of other) (rank_of self) }
    {
        other.rank() < self.rank()
    }
}

/// The word of a level.
pub(crate) fn level_name(level: Level) -> &'static str
    ensures exact { result.now ≡ level_name level }
{
    match level {
        Level::Anyone => "none",
        Level::Simple => "simple",
        Level::Strong => "strong",
    }
}

/// The level of a word.
pub(crate) fn level_named(text: &str) -> Option<Level>
    ensures exact { result ≡ find (λ level. bytes_eq text.now (level_name level)) levels }
{
    if text == "none" {
        Some(Level::Anyone)
    } else if text == "simple" {
        Some(Level::Simple)
    } else if text == "strong" {
        Some(Level::Strong)
    } else {
        None
    }
}
