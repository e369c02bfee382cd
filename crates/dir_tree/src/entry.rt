//! Entries: a name with attributes.

ghost use Rattle.std.specs.Prelude.{◌≡◌, ◌≢◌, not, [], ◌∷◌, IfOk, OnOk, OnErr, length, slice_get};
ghost use Rattle.std.specs.List.{IsDistinct};
ghost use Rattle.std.specs.Option.{option_map};
ghost use Rattle.dir_tree.specs.Entry.{kinds_of, values_of, has_key, has_kind, is_match, IsGoodAttributes};
ghost use Rattle.dir_tree.specs.attributes.Changes.{with_value, with_values, without_value, without_kind};
ghost use Rattle.dir_tree.specs.EntryClasses.{has_class};
ghost use Rattle.dir_tree.specs.Points.{is_point, is_subentry, is_access_subentry};

use crate::attribute_iter::Attributes;
use crate::attributes::{
    copy_attributes, cut_values, drop_empty, drop_kind, has_kind, has_value, put_value, set_values,
};
use crate::classes::is_any_kind_of;
use dn_names::{Dn, Value};
use indexmap::IndexMap;
use schema_tables::AttrId;
use std::alloc::{AllocError, Global};
use std::marker::Model;
use value_lists::Values;

/// No memory was left.
pub type NoMemory = AllocError;

/// An entry of the directory: its name and its attributes, of which those that came earlier stand first. An attribute
/// has one value or more, of distinct keys, and of these too the earlier ones stand first.
#[derive(Debug, Drop)]
pub struct Entry {
    name: Dn,
    attributes: IndexMap<AttrId, Values>,
}

impl Model for Entry {
    ghost use Rattle.std.specs.List.{AllByRecursion};
    ghost use Rattle.dir_tree.specs.Entry.{EntryInformation, IsGoodAttribute};
    ghost use Rattle.dir_tree.specs.attributes.Rows.{attributes_of};

    ghost Value = { EntryInformation };

    ghost view = { λ entry. record { name = entry.name; attributes = attributes_of entry.attributes.entries } };

    ghost invariant = { λ entry. AllByRecursion IsGoodAttribute (attributes_of entry.attributes.entries) };
}

impl Entry {
    /// The entry of this name that has no attributes yet. Takes no memory, so there is no error.
    pub fn new(alloc: Global, name: Dn) -> Result<Entry, NoMemory>
        ensures exact { result ≡ Ok (record { name = name; attributes = [] }) }
    {
        Ok(Entry {
            name,
            attributes: IndexMap::new(alloc),
        })
    }

    /// The name.
    pub fn name(&self) -> &Dn
        ensures exact { result.now ≡ self.now.name }
    {
        &self.name
    }

    /// The values of the attribute type, the earlier ones first; empty where the entry has none.
    pub fn values(&self, kind: AttrId) -> &[Value]
        ensures exact { result.now ≡ values_of kind.0 self.now.attributes }
    {
        match self.attributes.get(&kind) {
            Some(values) => values.as_slice(),
            None => &[],
        }
    }

    /// The attributes, the earlier ones first.
    pub fn attributes(&self) -> Attributes<'_>
        ensures exact { result ≡ self.now.attributes }
    {
        Attributes::new(&self.attributes)
    }

    /// Whether the entry has an attribute of the type.
    pub fn has_kind(&self, kind: AttrId) -> bool
        ensures exact { result ≡ has_kind kind.0 self.now.attributes }
    {
        has_kind(&self.attributes, kind)
    }

    /// Whether a value of the attribute type has the key.
    pub fn has_value(&self, kind: AttrId, key: &[u8]) -> bool
        ensures exact { result ≡ has_key key.now (values_of kind.0 self.now.attributes) }
    {
        has_value(&self.attributes, kind, key)
    }

    /// The number of attributes.
    pub fn kinds(&self) -> usize
        ensures exact { result ≡ length self.now.attributes }
    {
        self.attributes.len()
    }

    /// The type of the attribute at this place, counted from 0 with the earlier attributes first; None exactly past the
    /// last.
    pub fn kind_at(&self, index: usize) -> Option<AttrId>
        ensures exact { option_map (λ kind. kind.0) result ≡ slice_get (kinds_of self.now.attributes) index }
    {
        let (kind, _) = self.attributes.get_index(index)?;
        Some(*kind)
    }

    /// Adds the value to the attribute of the type. Answers whether it was added: it is not, and the entry stays,
    /// where a value of the type has an equal key. The error comes where memory is wanted, and the entry stays.
    pub fn push(&mut self, kind: AttrId, value: Value) -> Result<bool, NoMemory>
        ensures ok { OnOk result (self.new ≡ with_value kind.0 value self.old) }
        ensures found { IfOk result (λ added.
            added ≡ not (has_key value.key (values_of kind.0 self.old.attributes))) }
        ensures err { OnErr result (self.new ≡ self.old) }
    {
        if has_value(&self.attributes, kind, value.key()) {
            return Ok(false);
        }
        put_value(&mut self.attributes, kind, value)?;
        Ok(true)
    }

    /// Gives the attribute of the type these values in place of its own; where the entry has no such attribute, it comes
    /// last. There is a value, and no two have equal keys. The error comes where memory is wanted, and the entry stays.
    pub fn set_values(&mut self, kind: AttrId, values: Vec<Value>) -> Result<(), NoMemory>
        requires filled { values.items ≢ [] }
        requires distinct { IsDistinct is_match values.items }
        ensures ok { OnOk result (self.new ≡ with_values kind.0 values.items self.old) }
        ensures err { OnErr result (self.new ≡ self.old) }
    {
        let alloc = *self.attributes.allocator();
        let values = Values::from_vec(alloc, values)?;
        set_values(&mut self.attributes, kind, values)?;
        Ok(())
    }

    /// Takes out the value of the type that has the key, and the attribute with its last value. Answers whether
    /// there was one.
    pub fn drop_value(&mut self, kind: AttrId, key: &[u8]) -> bool
        ensures exact { self.new ≡ without_value kind.0 key.now self.old }
        ensures found { result ≡ has_key key.now (values_of kind.0 self.old.attributes) }
    {
        let found = has_value(&self.attributes, kind, key);
        cut_values(&mut self.attributes, kind, key);
        drop_empty(&mut self.attributes);
        found
    }

    /// Takes out the attribute of the type with all its values. Answers whether there was one.
    pub fn drop_kind(&mut self, kind: AttrId) -> bool
        ensures exact { self.new ≡ without_kind kind.0 self.old }
        ensures found { result ≡ has_kind kind.0 self.old.attributes }
    {
        drop_kind(&mut self.attributes, kind)
    }

    /// Gives the entry another name.
    pub fn set_name(&mut self, name: Dn)
        ensures exact { self.new ≡ record self.old { name = name } }
    {
        self.name = name;
    }

    /// Whether one of the classes that the entry lists, or of their superclasses, has the object identifier in
    /// dotted form. Takes no memory.
    pub fn has_class(&self, oid: &str) -> bool
        ensures exact { result ≡ has_class oid.now self.now }
    {
        is_any_kind_of(self.values(AttrId::OBJECT_CLASS), oid)
    }

    /// Whether the entry is an administrative point. Takes no memory.
    pub fn is_point(&self) -> bool
        ensures exact { result ≡ is_point self.now }
    {
        !self.values(AttrId::ADMINISTRATIVE_ROLE).is_empty()
    }

    /// Whether the entry is a subentry. Takes no memory.
    pub fn is_subentry(&self) -> bool
        ensures exact { result ≡ is_subentry self.now }
    {
        self.has_class("2.5.17.0")
    }

    /// Whether the entry is an access control subentry. Takes no memory.
    pub fn is_access_subentry(&self) -> bool
        ensures exact { result ≡ is_access_subentry self.now }
    {
        // The rarer class first: for most entries one look at the classes is enough.
        self.has_class("2.5.17.1") && self.has_class("2.5.17.0")
    }

    /// The same entry, whose attributes have memory of their own; the error comes where there is none.
    pub fn copy(&self, alloc: Global) -> Result<Entry, NoMemory>
        ensures ok { IfOk result (λ entry. entry ≡ self.now) }
    {
        Ok(Entry {
            name: self.name.copy(alloc)?,
            attributes: copy_attributes(alloc, &self.attributes)?,
        })
    }

    /// Lets the name share memory with another, as far as the two are alike.
    pub(crate) fn share_name(&mut self, other: &Dn)
        ensures exact { self.new ≡ self.old }
    {
        self.name.share_with(other);
    }

    /// Gives back the memory that the attributes do not need.
    pub(crate) fn fit(&mut self)
        ensures exact { self.new ≡ self.old }
    {
        self.attributes.shrink_to_fit();
    }

    /// Attributes have distinct types, each has a value, and its values have distinct keys. Computes nothing.
    pub fn is_good(&self)
        ensures good { IsGoodAttributes self.now.attributes }
    {
        let _count = self.attributes.len();
    }
}
