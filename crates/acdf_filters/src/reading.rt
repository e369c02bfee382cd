//! The items of an entry, read.

ghost use Rattle.std.specs.Prelude.{◌≡◌, ◌++◌, IfOk, OnOk, map};
ghost use Rattle.std.specs.Option.{option_map};
ghost use Rattle.aci_item.specs.AciText.{item_of};
ghost use Rattle.aci_item.specs.item.Views.{item_of_code};
ghost use Rattle.acdf_filters.specs.Tuples.{tagged, items_in};
ghost use Rattle.acdf_filters.specs.weighing.Weighing.{tagged_of, listed_option};

use crate::weighing::TaggedTuples;
use aci_item::{AciItem, BadText, read, tuples};
use dir_tree::schema_tables::AttrId;
use dir_tree::{Entry, NoMemory};
use std::alloc::{AllocError, Global};

// The tuples of an item, with its tag.
fn split(alloc: Global, item: AciItem) -> Result<TaggedTuples, NoMemory>
    ensures ok { IfOk result (λ found. tagged_of found ≡ tagged (item_of_code item)) }
{
    let tuples = tuples(alloc, &item)?;
    Ok(TaggedTuples {
        tag: item.tag,
        tuples,
    })
}

// Those of the item that the octets are; None where they are none.
#[tactic(auto, unfolding(aci_item::specs::AciText::item_of))]
fn read_item(alloc: Global, octets: &[u8]) -> Result<Option<TaggedTuples>, NoMemory>
    ensures ok { IfOk result (λ found. option_map tagged_of found ≡ option_map tagged (item_of octets.now)) }
{
    match read(alloc, octets) {
        Ok(item) => Ok(Some(split(alloc, item)?)),
        Err(BadText::NoMemory) => Err(AllocError),
        Err(BadText::Text) => Ok(None),
        Err(BadText::Part { .. }) => Ok(None),
    }
}

// Puts an item at the end, where there is one.
fn put_item(items: &mut Vec<TaggedTuples>, found: Option<TaggedTuples>) -> Result<(), NoMemory>
    ensures ok { OnOk result
        (map tagged_of items.new.items ≡ map tagged_of items.old.items ++ listed_option (option_map tagged_of found)) }
{
    if let Some(item) = found {
        items.push(item)?;
    }
    Ok(())
}

/// The items of the entry's values of the type, in the order of the values, split into tuples: a value that is no item
/// gives none. The error comes where memory is wanted.
#[tactic(auto, unfolding(crate::specs::Tuples::items_in))]
pub fn read_items(alloc: Global, entry: &Entry, kind: AttrId) -> Result<Vec<TaggedTuples>, NoMemory>
    ensures ok { IfOk result (λ items. map tagged_of items.items ≡ items_in kind.0 entry.now) }
{
    let mut items = Vec::new(alloc);
    for value in entry.values(kind) {
        put_item(&mut items, read_item(alloc, value.octets())?)?;
    }
    Ok(items)
}
