//! What the hush of a subtree for a connection is made of.

ghost use Rattle.std.specs.Prelude.{◌≡◌};
ghost use Rattle.hush_laws.specs.Audits.{part_number};

/// A part of what hushes a subtree for a connection, in the order in which the parts are tried.
#[derive(Clone, Copy, Debug, PartialEq, Eq)]
pub enum Part {
    /// The name of the subtree isn't below the suffix.
    Suffix,
    /// Entries that are neither at the name nor below it aren't those of the beginning.
    Others,
    /// An entry at or below the name is a subentry, or has an administrative role.
    Governs,
    /// An entry at or below the name is shown to the connection's requester.
    Shown,
    /// An access control item of an entry outside names a group at or below the name.
    Groups,
    /// The connection asked for a change of entries.
    Change,
    /// The connection sent a bind with a name at or below the name.
    Bind,
    /// The connection was turned away when it opened.
    TurnedAway,
}

impl Part {
    /// The number by which the part is told, from 0 on.
    pub fn number(self) -> u8
        ensures exact { result ≡ part_number self }
    {
        match self {
            Part::Suffix => 0,
            Part::Others => 1,
            Part::Governs => 2,
            Part::Shown => 3,
            Part::Groups => 4,
            Part::Change => 5,
            Part::Bind => 6,
            Part::TurnedAway => 7,
        }
    }
}
