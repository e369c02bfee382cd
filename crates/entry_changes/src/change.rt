//! Changes.

ghost use Rattle.std.specs.Prelude.{◌≡◌};
ghost use Rattle.std.specs.List.{IsDistinct};
ghost use Rattle.dir_tree.specs.Entry.{is_match};

use crate::kind::ChangeKind;
use dir_tree::dn_names::Value;
use dir_tree::schema_tables::AttrId;
use std::marker::Model;

/// One change of an entry: values of one attribute type come, go, or take the place of those that are there. No two of
/// them match.
#[derive(Debug, Drop)]
pub struct EntryChange {
    change: ChangeKind,
    kind: AttrId,
    values: Vec<Value>,
}

impl Model for EntryChange {
    ghost use Rattle.std.specs.List.{IsDistinct};
    ghost use Rattle.dir_tree.specs.Entry.{is_match};
    ghost use Rattle.entry_changes.specs.Change.{Modification};

    ghost Value = { Modification };

    ghost view = { λ change. record { change = change.change; kind = change.kind.0; values = change.values.items } };

    ghost invariant = { λ change. IsDistinct is_match change.values.items };
}

impl EntryChange {
    /// The change of this kind with values of the type, of which no two match.
    pub fn new(change: ChangeKind, kind: AttrId, values: Vec<Value>) -> EntryChange
        requires { IsDistinct is_match values.items }
        ensures exact { result ≡ record { change = change; kind = kind.0; values = values.items } }
    {
        EntryChange {
            change,
            kind,
            values,
        }
    }

    /// What it does.
    pub(crate) fn change(&self) -> ChangeKind
        ensures exact { result ≡ self.now.change }
    {
        self.change
    }

    /// The type.
    pub(crate) fn kind(&self) -> AttrId
        ensures exact { result.0 ≡ self.now.kind }
    {
        self.kind
    }

    /// The values, of which no two match.
    pub(crate) fn values(&self) -> &[Value]
        ensures exact { result.now ≡ self.now.values }
        ensures distinct { IsDistinct is_match result.now }
    {
        self.values.as_slice()
    }
}
