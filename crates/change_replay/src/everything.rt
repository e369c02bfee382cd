//! Who grants everything.

ghost use Rattle.change_replay.specs.Applied.{everything};

use acdf_filters::Item;
use acdf_filters::aci_item::Permission;
use dir_tree::Entry;
use dir_tree::dn_names::Value;
use dir_tree::schema_tables::AttrId;
use entry_changes::EntryAsker;

/// Grants every permission: what is made again was granted once.
#[derive(Drop)]
pub(crate) struct Everything;

impl EntryAsker for Everything {
    ghost asker = { λ _. everything };

    fn allows(&self, _item: Item<'_>, _permission: Permission) -> bool {
        true
    }

    fn adds(&self, _after: &Entry, _kind: AttrId, _value: &Value) -> bool {
        true
    }
}
