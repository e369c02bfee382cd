//! The attributes of an entry, one after another.

ghost use Rattle.std.specs.Prelude.{◌≡◌};
ghost use Rattle.dir_tree.specs.attributes.Rows.{attributes_of};

use dn_names::Value;
use indexmap::IndexMap;
use indexmap::map::Iter;
use schema_tables::AttrId;
use std::marker::Model;
use value_lists::Values;

/// The attributes of an entry, each as its type and its values, the earlier ones first. Contracts see the attributes
/// that are left.
#[derive(Drop)]
pub struct Attributes<'a> {
    left: Iter<'a, AttrId, Values>,
}

impl<'a> Model for Attributes<'a> {
    ghost use Rattle.std.specs.Prelude.{List};
    ghost use Rattle.dir_tree.specs.Entry.{Attribute};
    ghost use Rattle.dir_tree.specs.attributes.Rows.{attributes_of};

    ghost Value = { List Attribute };

    ghost view = { λ attributes. attributes_of attributes.left };
}

impl<'a> Attributes<'a> {
    /// All of the map's attributes.
    pub(crate) fn new(attributes: &'a IndexMap<AttrId, Values>) -> Attributes<'a>
        ensures exact { result ≡ attributes_of attributes.now.entries }
    {
        Attributes {
            left: attributes.iter(),
        }
    }
}

impl<'a> Iterator for Attributes<'a> {
    ghost use Rattle.std.specs.Iterator.{YieldsFirstBy, item_count};

    type Item = (AttrId, &'a [Value]);

    ghost next_gives = { YieldsFirstBy (λ item. record { kind = item.0.0; values = item.1.now }) (λ left. left) };

    ghost remaining = { item_count (λ left. left) };

    fn next(&mut self) -> Option<(AttrId, &'a [Value])> {
        let (kind, values) = self.left.next()?;
        Some((*kind, values.as_slice()))
    }
}
