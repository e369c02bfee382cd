//! The values of one attribute.

ghost use Rattle.std.specs.Prelude.{◌≡◌, ◌++◌, [], ◌∷◌, ◌==◌, length, not, filter, IfOk, OnOk, OnErr};
ghost use Rattle.std.specs.List.{list_any};
ghost use Rattle.std.specs.Str.{bytes_eq};

use crate::kept::Kept;
use dn_names::Value;
use std::alloc::{AllocError, Global};
use std::marker::Model;

/// The values of one attribute, the earlier ones first. Contracts see the list of them. One value takes no memory
/// beside its own; beside more than 32, their places in the order of keys are kept, by which a key is found at once.
#[derive(Debug, Drop)]
pub struct Values {
    kept: Kept,
}

impl Model for Values {
    ghost use Rattle.std.specs.Prelude.{List};
    ghost use Rattle.dn_names.specs.name.Names.{Keyed};
    ghost use Rattle.value_lists.specs.Kept.{values_in};

    ghost Value = { List Keyed };

    ghost view = { λ values. values_in values.kept };
}

impl Values {
    /// The one value.
    pub fn one(value: Value) -> Values
        ensures exact { result ≡ value ∷ [] }
    {
        Values {
            kept: Kept::One(value),
        }
    }

    /// These values. The error comes where there is no memory for the order of many.
    pub fn from_vec(alloc: Global, values: Vec<Value>) -> Result<Values, AllocError>
        ensures ok { IfOk result (λ all. all ≡ values.items) }
    {
        Ok(Values {
            kept: Kept::from_vec(alloc, values)?,
        })
    }

    /// The values in their order.
    pub fn as_slice(&self) -> &[Value]
        ensures exact { result.now ≡ self.now }
    {
        self.kept.as_slice()
    }

    /// Whether there is none.
    pub fn is_empty(&self) -> bool
        ensures exact { result ≡ (length self.now == 0) }
    {
        self.kept.as_slice().is_empty()
    }

    /// Whether one of the values has the key. Takes no memory.
    pub fn has_key(&self, key: &[u8]) -> bool
        ensures exact { result ≡ list_any (λ value. bytes_eq key.now value.key) self.now }
    {
        self.kept.has_key(key)
    }

    /// Puts the value last. The error comes where memory is wanted, and the values stay.
    pub fn push(&mut self, alloc: Global, value: Value) -> Result<(), AllocError>
        ensures ok { OnOk result (self.new ≡ self.old ++ value ∷ []) }
        ensures err { OnErr result (self.new ≡ self.old) }
    {
        self.kept.push(alloc, value)
    }

    /// Takes out the values that have the key. Takes no memory.
    pub fn drop_key(&mut self, alloc: Global, key: &[u8])
        ensures exact { self.new ≡ filter (λ value. not (bytes_eq key.now value.key)) self.old }
    {
        self.kept.drop_key(alloc, key);
    }

    /// The same values in memory of their own; the error comes where there is none.
    pub fn copy(&self, alloc: Global) -> Result<Values, AllocError>
        ensures ok { IfOk result (λ copies. copies ≡ self.now) }
    {
        Ok(Values {
            kept: self.kept.copy(alloc)?,
        })
    }
}
