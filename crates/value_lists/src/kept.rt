//! One value, few, or many with their order.

ghost use Rattle.std.specs.Prelude.{◌≡◌, ◌++◌, [], ◌∷◌, ◌≤◌};
ghost use Rattle.std.specs.Prelude.{vec_capacity, not, filter, IfOk, IfErr, OnOk, OnErr};
ghost use Rattle.std.specs.List.{list_any};
ghost use Rattle.std.specs.Str.{bytes_eq};
ghost use Rattle.value_lists.specs.Kept.{values_in};

use crate::keys::{copy_values, drop_key, has_key};
use crate::ordered::Ordered;
use dn_names::Value;
use std::alloc::{AllocError, Global};
use std::mem::replace;
use std::slice::from_ref;

/// The most values beside which no order is kept.
const FEW: usize = 32;

/// One value, few, or more with their order.
#[derive(Debug, Drop)]
pub(crate) enum Kept {
    One(Value),
    Few(Vec<Value>),
    Many(Box<Ordered>),
}

impl Kept {
    /// The values in their order.
    pub(crate) fn as_slice(&self) -> &[Value]
        ensures exact { result.now ≡ values_in self.now }
    {
        match self {
            Kept::One(value) => from_ref(value),
            Kept::Few(values) => values.as_slice(),
            Kept::Many(values) => values.as_slice(),
        }
    }

    /// These values. The error comes where memory is wanted.
    pub(crate) fn from_vec(alloc: Global, values: Vec<Value>) -> Result<Kept, AllocError>
        ensures ok { IfOk result (λ kept. values_in kept ≡ values.items) }
    {
        let mut values = values;
        if values.len() == 1 {
            if let Some(value) = values.pop() {
                return Ok(Kept::One(value));
            }
        }
        if values.len() <= FEW {
            return Ok(Kept::Few(values));
        }
        match in_order(alloc, values) {
            Ok(values) => Ok(Kept::Many(values)),
            Err(_) => Err(AllocError),
        }
    }

    /// Whether one of the values has the key.
    pub(crate) fn has_key(&self, key: &[u8]) -> bool
        ensures exact { result ≡ list_any (λ value. bytes_eq key.now value.key) (values_in self.now) }
    {
        match self {
            Kept::Many(values) => values.has_key(key),
            few => has_key(few.as_slice(), key),
        }
    }

    /// Puts the value last. The error comes where memory is wanted, and the values stay.
    pub(crate) fn push(&mut self, alloc: Global, value: Value) -> Result<(), AllocError>
        ensures ok { OnOk result (values_in self.new ≡ values_in self.old ++ value ∷ []) }
        ensures err { OnErr result (values_in self.new ≡ values_in self.old) }
    {
        match replace(self, Kept::Few(Vec::new(alloc))) {
            Kept::One(first) => self.put_both(alloc, first, value),
            Kept::Few(values) => self.put_last(alloc, values, value),
            Kept::Many(values) => self.put_in_order(values, value),
        }
    }

    /// Takes out the values that have the key.
    pub(crate) fn drop_key(&mut self, alloc: Global, key: &[u8])
        ensures exact { values_in self.new ≡ filter (λ value. not (bytes_eq key.now value.key)) (values_in self.old) }
    {
        match self {
            Kept::One(value) => {
                if key == value.key() {
                    *self = Kept::Few(Vec::new(alloc));
                }
            }
            Kept::Few(values) => drop_key(values, key),
            Kept::Many(values) => values.drop_key(key),
        }
    }

    /// The same values in memory of their own.
    pub(crate) fn copy(&self, alloc: Global) -> Result<Kept, AllocError>
        ensures ok { IfOk result (λ copies. values_in copies ≡ values_in self.now) }
    {
        match self {
            Kept::One(value) => Ok(Kept::One(value.copy(alloc)?)),
            Kept::Few(values) => Ok(Kept::Few(copy_values(alloc, values)?)),
            Kept::Many(values) => Ok(Kept::Many(Box::new(alloc, values.copy(alloc)?)?)),
        }
    }

    // Puts both values in; where memory is wanted, the first alone.
    fn put_both(&mut self, alloc: Global, first: Value, second: Value) -> Result<(), AllocError>
        ensures ok { OnOk result (values_in self.new ≡ first ∷ second ∷ []) }
        ensures err { OnErr result (values_in self.new ≡ first ∷ []) }
    {
        match Vec::with_capacity(alloc, 2) {
            Ok(room) => {
                *self = Kept::Few(both_in(room, first, second));
                Ok(())
            }
            Err(error) => {
                *self = Kept::One(first);
                Err(error)
            }
        }
    }

    // Puts the values in, and the value last, with their order where they are many; where memory is wanted, the
    // values alone.
    fn put_last(
        &mut self,
        alloc: Global,
        values: Vec<Value>,
        value: Value,
    ) -> Result<(), AllocError>
        ensures ok { OnOk result (values_in self.new ≡ values.items ++ value ∷ []) }
        ensures err { OnErr result (values_in self.new ≡ values.items) }
    {
        if values.len() < FEW {
            return self.put_among_few(values, value);
        }
        match in_order(alloc, values) {
            Ok(values) => self.put_in_order(values, value),
            Err(values) => {
                *self = Kept::Few(values);
                Err(AllocError)
            }
        }
    }

    // Puts the values in, and the value last; where memory is wanted, the values alone.
    fn put_among_few(&mut self, values: Vec<Value>, value: Value) -> Result<(), AllocError>
        ensures ok { OnOk result (values_in self.new ≡ values.items ++ value ∷ []) }
        ensures err { OnErr result (values_in self.new ≡ values.items) }
    {
        let mut values = values;
        let result = values.push(value);
        *self = Kept::Few(values);
        Ok(result?)
    }

    // The same of values with their order.
    fn put_in_order(&mut self, values: Box<Ordered>, value: Value) -> Result<(), AllocError>
        ensures ok { OnOk result (values_in self.new ≡ values.value ++ value ∷ []) }
        ensures err { OnErr result (values_in self.new ≡ values.value) }
    {
        let mut values = values;
        let result = values.push(value);
        *self = Kept::Many(values);
        result
    }
}

// The two values in the vector, which is empty and has room for them.
fn both_in(room: Vec<Value>, first: Value, second: Value) -> Vec<Value>
    requires empty { room.items ≡ [] }
    requires fits { 2 ≤ vec_capacity room }
    ensures exact { result.items ≡ first ∷ second ∷ [] }
{
    let mut values = room;
    values.push_reserved(first);
    values.push_reserved(second);
    values
}

// The values with their order; they come back where memory is wanted.
fn in_order(alloc: Global, values: Vec<Value>) -> Result<Box<Ordered>, Vec<Value>>
    ensures ok { IfOk result (λ ordered. ordered.value ≡ values.items) }
    ensures err { IfErr result (λ back. back.items ≡ values.items) }
{
    match Box::new(alloc, Ordered::from_vec(alloc, values)?) {
        Ok(ordered) => Ok(ordered),
        Err(failed) => Err(failed.value.into_vec()),
    }
}
