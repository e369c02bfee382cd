//! What the items of a filter ask, prepared.

ghost use Rattle.std.specs.Prelude.{◌≡◌};
ghost use Rattle.filter_match.specs.Tests.Test.{Nothing};

use dir_tree::dn_names::Value;
use dir_tree::schema_tables::AttrId;
use std::marker::Model;

/// What an item asks of an entry. Contracts see the type by its number, and keys as lists of octets.
#[derive(Drop)]
pub(crate) struct Test {
    pub(crate) asks: Asks,
}

/// What an item asks.
#[derive(Drop)]
pub(crate) enum Asks {
    /// Nothing: the item is Undefined of every entry.
    Nothing,
    /// That the type is there.
    IsThere(AttrId),
    /// A value of the type that matches.
    HasValue(AttrId, Asserted),
}

/// What is asserted of a value.
#[derive(Drop)]
pub(crate) enum Asserted {
    /// It has the key of this value.
    HasKey(Value),
    /// It is the class that is this value's key, or one below.
    IsClass(Value),
    /// Its key is not before this one.
    IsAtLeast(Vec<u8>),
    /// Its key is not behind this one.
    IsAtMost(Vec<u8>),
    /// Its key has the first part, the middle ones and the last.
    HasParts(Vec<u8>, Vec<Vec<u8>>, Vec<u8>),
}

impl Model for Test {
    ghost use Rattle.filter_match.specs.Tests as tests;

    ghost Value = { tests.Test };

    ghost use Rattle.filter_match.specs.Asked.{test_asked};

    ghost view = { λ test. test_asked test.asks };
}

impl Test {
    pub(crate) fn nothing() -> Test
        ensures { result ≡ Nothing }
    {
        Test {
            asks: Asks::Nothing,
        }
    }
}
