//! What is asked, in memory of its own.

ghost use Rattle.std.specs.Prelude.{◌≡◌};
ghost use Rattle.acdf_filters.specs.Asking.{protected_of};
ghost use Rattle.explanation.specs.Questions.{item_asked};

use acdf_filters::aci_item::Permission;
use acdf_filters::{Item, Requester};
use dir_tree::dn_names::{Dn, Value};
use dir_tree::schema_tables::AttrId;
use std::alloc::AllocError;

/// Memory is refused.
pub type NoMemory = AllocError;

/// What a permission is asked for (X.501 18.8.1), in memory of its own.
#[derive(Drop)]
pub enum AskedItem {
    /// The entry as a whole.
    Entry,
    /// An attribute type of it.
    Kind(AttrId),
    /// A value of an attribute type.
    Value(AttrId, Value),
}

impl AskedItem {
    /// The item as the decision function takes it.
    pub fn item(&self) -> Item<'_>
        ensures exact { protected_of result ≡ item_asked self.now }
    {
        match self {
            AskedItem::Entry => Item::Entry,
            AskedItem::Kind(kind) => Item::Kind(*kind),
            AskedItem::Value(kind, value) => Item::Value(*kind, value),
        }
    }
}

/// One question to the decision function: by whom, on which entry, on what of it, and for which permission.
#[derive(Drop)]
pub struct AskedDecision {
    pub who: Requester,
    /// The name of the entry, which is not empty.
    pub target: Dn,
    pub item: AskedItem,
    pub permission: Permission,
}
