//! On what of the entry.

ghost use Rattle.std.specs.Prelude.{◌≡◌, IfOk};
ghost use Rattle.std.specs.Option.{option_map};
ghost use Rattle.dir_tree.specs.schema_tables.Attributes.{IsAttrId};
ghost use Rattle.dir_tree.specs.dn_names.NameValues.{value_of};
ghost use Rattle.explanation.specs.Questions.{item_asked};
ghost use Rattle.explanation.specs.ItemWords.{item_of, kind_item, value_item};

use crate::asked::{AskedItem, NoMemory};
use crate::cutting::{after, cut_at_equals};
use dir_tree::dn_names::{Value, make_value};
use dir_tree::match_rules::PrepareFault;
use dir_tree::schema_tables::{AttrId, attr_named};
use std::alloc::{AllocError, Global};

/// The item of `type:NAME`, by the name.
#[tactic(auto, unfolding(crate::specs::ItemWords::kind_item))]
fn kind_item(name: &[u8]) -> Option<AskedItem>
    ensures { option_map item_asked result ≡ kind_item name.now }
{
    match attr_named(name) {
        Some(kind) => Some(AskedItem::Kind(kind)),
        None => None,
    }
}

/// The value of a type that octets are; None where they are not of its syntax.
fn read_value(alloc: Global, kind: AttrId, octets: &[u8]) -> Result<Option<Value>, NoMemory>
    requires { IsAttrId kind.0 }
    ensures { IfOk result (λ value. value ≡ value_of kind.0 octets.now) }
{
    let octets = Vec::from_slice(alloc, octets)?;
    match make_value(alloc, kind, octets) {
        Ok(value) => Ok(Some(value)),
        Err(PrepareFault::NotOfSyntax) => Ok(None),
        Err(PrepareFault::NoMemory) => Err(AllocError),
    }
}

/// The item of `value:NAME=TEXT`, by what follows the colon.
#[tactic(auto, unfolding(crate::specs::ItemWords::value_item))]
fn value_item(alloc: Global, body: &[u8]) -> Result<Option<AskedItem>, NoMemory>
    ensures { IfOk result (λ item. option_map item_asked item ≡ value_item body.now) }
{
    let Some((name, octets)) = cut_at_equals(body) else {
        return Ok(None);
    };
    let Some(kind) = attr_named(name) else {
        return Ok(None);
    };
    match read_value(alloc, kind, octets)? {
        Some(value) => Ok(Some(AskedItem::Value(kind, value))),
        None => Ok(None),
    }
}

/// The item that a word says; None where it says none: `entry`, `type:NAME` or `value:NAME=TEXT`, cut at the first `=`,
/// where NAME is an attribute type's name or object identifier, and TEXT is of its syntax. The error comes where memory is
/// refused.
#[tactic(auto, unfolding(crate::specs::ItemWords::item_of))]
pub fn read_item(alloc: Global, word: &str) -> Result<Option<AskedItem>, NoMemory>
    ensures exact { IfOk result (λ item. option_map item_asked item ≡ item_of word.now) }
{
    if word == "entry" {
        return Ok(Some(AskedItem::Entry));
    }
    if let Some(name) = after(b"type:", word.as_bytes()) {
        return Ok(kind_item(name));
    }
    match after(b"value:", word.as_bytes()) {
        Some(body) => value_item(alloc, body),
        None => Ok(None),
    }
}
