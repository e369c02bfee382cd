//! Values of attributes.

ghost use Rattle.std.specs.Prelude.{◌≡◌, ◌++◌, IfOk};
ghost use Rattle.dn_names.specs.value.Pieces.{split_of};

use crate::short::{Text, append, front};
use std::alloc::{AllocError, Global};
use std::marker::Model;

/// A value of an attribute: its octets as they were given, and the key by which it is compared.
#[derive(Debug, Drop)]
pub struct Value {
    // the octets, and behind them the key where it is another; split where the octets end, at the text's end
    // where the key is the octets, and past it where the key is empty
    text: Text,
}

impl Model for Value {
    ghost use Rattle.dn_names.specs.name.Names.{Keyed};
    ghost use Rattle.dn_names.specs.value.Pieces.{octets_in, key_in};

    ghost Value = { Keyed };

    ghost view = { λ value. record {
      octets = octets_in value.text.split value.text.octets;
      key = key_in value.text.split value.text.octets;
    } };
}

impl Value {
    /// The value of octets with a key; the error comes where memory is refused.
    pub(crate) fn from_parts(octets: Vec<u8>, key: Vec<u8>) -> Result<Value, AllocError>
        ensures ok { IfOk result (λ value. value ≡ record { octets = octets.items; key = key.items }) }
    {
        if octets.as_slice() == key.as_slice() {
            Ok(Value::from_one(octets))
        } else {
            Value::from_two(octets, &key)
        }
    }

    /// The same of octets and a key that others keep; short ones take no memory.
    pub(crate) fn from_slices(alloc: Global, octets: &[u8], key: &[u8]) -> Result<Value, AllocError>
        ensures ok { IfOk result (λ value. value ≡ record { octets = octets.now; key = key.now }) }
    {
        if octets == key {
            Value::from_slice(alloc, octets)
        } else {
            let split = split_of(octets, key)?;
            let text = Text::from_slices(alloc, octets, key, split)?;
            Ok(Value { text })
        }
    }

    /// The value whose key is its octets, which others keep; a short one takes no memory.
    pub(crate) fn from_slice(alloc: Global, octets: &[u8]) -> Result<Value, AllocError>
        ensures ok { IfOk result (λ value. value ≡ record { octets = octets.now; key = octets.now }) }
    {
        let text = Text::from_slice(alloc, octets, octets.len())?;
        Ok(Value { text })
    }

    /// The value whose key is its octets.
    pub(crate) fn from_one(octets: Vec<u8>) -> Value
        ensures exact { result ≡ record { octets = octets.items; key = octets.items } }
    {
        let split = octets.len();
        Value {
            text: Text::from_vec(octets, split),
        }
    }

    // The value of octets with another key.
    fn from_two(octets: Vec<u8>, key: &[u8]) -> Result<Value, AllocError>
        ensures ok { IfOk result (λ value. value ≡ record { octets = octets.items; key = key.now }) }
    {
        let split = split_of(&octets, key)?;
        Ok(Value {
            text: Text::from_vec(append(octets, key)?, split),
        })
    }

    /// The octets.
    pub fn octets(&self) -> &[u8]
        ensures exact { result.now ≡ self.now.octets }
    {
        front(self.text.as_slice(), self.text.split())
    }

    /// The key: values of one syntax match exactly where their keys are equal.
    pub fn key(&self) -> &[u8]
        ensures exact { result.now ≡ self.now.key }
    {
        let text = self.text.as_slice();
        let split = self.text.split();
        if split == text.len() {
            text
        } else {
            &text[split.min(text.len())..]
        }
    }

    /// The same value in memory of its own; the error comes where there is none.
    pub fn copy(&self, alloc: Global) -> Result<Value, AllocError>
        ensures ok { IfOk result (λ value. value ≡ self.now) }
    {
        Ok(Value {
            text: self.text.copy(alloc)?,
        })
    }
}

// Where octets and another key are split.
fn split_of(octets: &[u8], key: &[u8]) -> Result<usize, AllocError>
    ensures ok { IfOk result (λ split. split ≡ split_of octets.now key.now) }
{
    if !key.is_empty() {
        return Ok(octets.len());
    }
    match octets.len().checked_add(1) {
        Some(past) => Ok(past),
        None => Err(AllocError),
    }
}
