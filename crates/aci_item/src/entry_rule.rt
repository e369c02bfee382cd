//! The rules of entries by name.

ghost use Rattle.std.specs.Prelude.{◌≡◌};
ghost use Rattle.aci_item.specs.EntryRule.{rule_number};

/// What an entry keeps in its place, in the order in which the rules are tried.
#[derive(Clone, Copy, PartialEq, Eq, Debug)]
pub enum EntryRule {
    /// The values of its last RDN are among its own.
    RdnValues,
    /// It is of the structural class of the entry whose place it takes (X.501 13.3.2).
    StructuralClass,
    /// Its classes go together, and its attributes go with them (X.501 8.3.2 and 13.3.3).
    Classes,
    /// Each value is in the grammar of its syntax.
    Syntaxes,
    /// A single-valued attribute has one value.
    SingleValues,
    /// A subentry stands immediately below an administrative point, and nothing below it (RFC 3672 2).
    Place,
    /// The tree has room for one more, and the octets of its values are not too many.
    Limits,
}

impl EntryRule {
    /// The number of the result code that tells of an entry that breaks the rule (RFC 4511 4.1.9).
    pub fn number(self) -> u8
        ensures exact { result ≡ rule_number self }
    {
        match self {
            EntryRule::RdnValues => 67,
            EntryRule::StructuralClass => 69,
            EntryRule::Classes => 65,
            EntryRule::Syntaxes => 21,
            EntryRule::SingleValues => 19,
            EntryRule::Place => 64,
            EntryRule::Limits => 11,
        }
    }
}
