//! Protected items.

ghost use Rattle.std.specs.Prelude.{◌≡◌, true};
ghost use Rattle.std.specs.Str.{IsUtf8, is_utf8};

use dir_tree::dn_names::Value;
use dir_tree::schema_tables::AttrId;
use std::marker::Model;
use std::str;

/// A type with a value, which is UTF-8.
#[derive(Debug, Drop)]
pub struct AttributeTypeAndValue {
    kind: AttrId,
    value: Value,
}

impl Model for AttributeTypeAndValue {
    ghost use Rattle.std.specs.Str.{is_utf8};
    ghost use Rattle.std.specs.Prelude.{◌≡◌, true};
    ghost use Rattle.dir_tree.specs.dn_names.name.Names.{TypeAndValue};

    ghost Value = { TypeAndValue };

    ghost view = { λ pair. record { kind = pair.kind.0; value = pair.value } };

    ghost invariant = { λ pair. is_utf8 pair.value.octets ≡ true };
}

impl AttributeTypeAndValue {
    /// A type with a value.
    pub(crate) fn new(kind: AttrId, value: Value) -> AttributeTypeAndValue
        requires { is_utf8 value.octets ≡ true }
        ensures exact { result ≡ record { kind = kind.0; value = value } }
    {
        AttributeTypeAndValue { kind, value }
    }

    /// The type.
    pub fn kind(&self) -> AttrId
        ensures exact { result.0 ≡ self.now.kind }
    {
        self.kind
    }

    /// The value.
    pub fn value(&self) -> &Value
        ensures exact { result.now ≡ self.now.value }
    {
        &self.value
    }

    /// The octets of the value as text.
    pub(crate) fn text(&self) -> &str
        ensures exact { result.now ≡ self.now.value.octets }
    {
        as_text(self.value.octets())
    }
}

// Octets that are text.
fn as_text(octets: &[u8]) -> &str
    requires { IsUtf8 octets.now }
    ensures exact { result.now ≡ octets.now }
{
    str::from_utf8(octets).unwrap()
}

/// At most so many values of the type (X.501 18.4.2.4, maxValueCount).
#[derive(Clone, Copy, PartialEq, Eq, Debug)]
pub struct MaxValueCount {
    pub kind: AttrId,
    /// At most 2147483647.
    pub max_count: u32,
}

/// Values of the type are among those of the other (X.501 18.4.2.4, restrictedBy). The two have the same syntax.
#[derive(Clone, Copy, PartialEq, Eq, Debug)]
pub struct RestrictedValue {
    pub kind: AttrId,
    pub values_in: AttrId,
}

/// Protected items (X.501 18.4.2.4). Each set stands in the order of its members' printed texts, and no two texts are
/// equal.
#[derive(Drop)]
pub struct ProtectedItems {
    /// entry.
    pub entry: bool,
    /// allUserAttributeTypes.
    pub all_kinds: bool,
    /// attributeType.
    pub kinds: Vec<AttrId>,
    /// allAttributeValues.
    pub all_values: Vec<AttrId>,
    /// allUserAttributeTypesAndValues.
    pub all_kinds_and_values: bool,
    /// attributeValue.
    pub values: Vec<AttributeTypeAndValue>,
    /// selfValue.
    pub self_values: Vec<AttrId>,
    /// maxValueCount.
    pub max_counts: Vec<MaxValueCount>,
    /// restrictedBy.
    pub restricted: Vec<RestrictedValue>,
}
