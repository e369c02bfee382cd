//! Values beside which the order of their keys is kept.

ghost use Rattle.std.specs.Prelude.{◌≡◌, ◌++◌, [], ◌∷◌, not, filter, IfOk, IfErr, OnOk, OnErr};
ghost use Rattle.std.specs.List.{list_any};
ghost use Rattle.std.specs.Str.{bytes_eq};
ghost use Rattle.value_lists.specs.Orders.{IsOrder};

use crate::drops::drop_in_order;
use crate::keys::copy_values;
use crate::places::{order_of, place_of, put_place};
use dn_names::Value;
use std::alloc::{AllocError, Global};
use std::marker::Model;

/// Values, and their places in the order of keys. Contracts see the values.
#[derive(Debug, Drop)]
pub(crate) struct Ordered {
    values: Vec<Value>,
    places: Vec<u32>,
}

impl Model for Ordered {
    ghost use Rattle.std.specs.Prelude.{List};
    ghost use Rattle.dn_names.specs.name.Names.{Keyed};
    ghost use Rattle.value_lists.specs.Orders.{IsOrder};

    ghost Value = { List Keyed };

    ghost view = { λ ordered. ordered.values.items };

    ghost invariant = { λ ordered. IsOrder ordered.values.items ordered.places.items };
}

impl Ordered {
    /// The values, which come back where memory is wanted.
    pub(crate) fn from_vec(alloc: Global, values: Vec<Value>) -> Result<Ordered, Vec<Value>>
        ensures ok { IfOk result (λ ordered. ordered ≡ values.items) }
        ensures err { IfErr result (λ back. back.items ≡ values.items) }
    {
        match order_of(alloc, &values) {
            Ok(places) => Ok(Ordered { values, places }),
            Err(_) => Err(values),
        }
    }

    /// The values without their order.
    pub(crate) fn into_vec(self) -> Vec<Value>
        ensures exact { result.items ≡ self }
    {
        self.values
    }

    /// The values in their order.
    pub(crate) fn as_slice(&self) -> &[Value]
        ensures exact { result.now ≡ self.now }
    {
        self.values.as_slice()
    }

    /// Whether one of the values has the key.
    pub(crate) fn has_key(&self, key: &[u8]) -> bool
        ensures exact { result ≡ list_any (λ value. bytes_eq key.now value.key) self.now }
    {
        place_of(&self.values, &self.places, key).is_some()
    }

    /// Puts the value last. The error comes where memory is wanted, and the values stay.
    pub(crate) fn push(&mut self, value: Value) -> Result<(), AllocError>
        ensures ok { OnOk result (self.new ≡ self.old ++ value ∷ []) }
        ensures err { OnErr result (self.new ≡ self.old) }
    {
        push_in_order(&mut self.values, &mut self.places, value)
    }

    /// Takes out the values that have the key.
    pub(crate) fn drop_key(&mut self, key: &[u8])
        ensures exact { self.new ≡ filter (λ value. not (bytes_eq key.now value.key)) self.old }
    {
        drop_in_order(&mut self.values, &mut self.places, key);
    }

    /// The same values in memory of their own.
    pub(crate) fn copy(&self, alloc: Global) -> Result<Ordered, AllocError>
        ensures ok { IfOk result (λ copies. copies ≡ self.now) }
    {
        Ok(Ordered {
            values: copy_values(alloc, &self.values)?,
            places: Vec::from_slice(alloc, &self.places)?,
        })
    }
}

// Puts the value last, and its place in. The error comes where memory is wanted, and the values stay.
fn push_in_order(
    values: &mut Vec<Value>,
    places: &mut Vec<u32>,
    value: Value,
) -> Result<(), AllocError>
    requires { IsOrder values.old.items places.old.items }
    ensures order { IsOrder values.new.items places.new.items }
    ensures ok { OnOk result (values.new.items ≡ values.old.items ++ value ∷ []) }
    ensures err { OnErr result (values.new.items ≡ values.old.items) }
{
    values.reserve(1)?;
    put_place(values, places, &value)?;
    values.push_reserved(value);
    Ok(())
}
