//! Who answers for permissions.

ghost use Rattle.std.specs.Prelude.{◌≡◌, Bool};
ghost use Rattle.acdf_filters.specs.aci_item.declared.permission.Permission.TheVariants as permission;
ghost use Rattle.acdf_filters.specs.Asking.{protected_of};
ghost use Rattle.entry_changes.specs.Change.{asks_after};

use acdf_filters::Item;
use acdf_filters::aci_item::Permission;
use dir_tree::Entry;
use dir_tree::dn_names::Value;
use dir_tree::schema_tables::AttrId;

/// Who answers of one entry for the permissions of a requester (X.501 18.2.3). An asker's answers do not change while
/// changes are made.
pub trait EntryAsker {
    ghost use Rattle.entry_changes.specs.Change.{Asker};

    ghost asker: { Self → Asker };

    /// Whether the permission for the item of the entry is granted.
    fn allows(&self, item: Item<'_>, permission: Permission) -> bool
        ensures exact { result ≡ (asker self.now).allows (protected_of item.entry) permission };

    /// Whether the value may be added to the attribute of the type, where the entry would be this one afterwards.
    fn adds(&self, after: &Entry, kind: AttrId, value: &Value) -> bool
        ensures exact { result ≡ (asker self.now).adds after.now kind.0 value.now };
}

/// What is asked of the entry in one change.
pub(crate) trait Ask {
    ghost use Rattle.entry_changes.specs.Change.{Asks};

    ghost asks: { Self → Asks };

    /// Whether the permission for the item of the entry is granted.
    fn asks(&self, item: Item<'_>, permission: Permission) -> bool
        ensures exact { result ≡ asks self.now (protected_of item.entry) permission };
}

/// Asks in a change that leaves this entry.
#[derive(Drop)]
pub(crate) struct AskerAfter<'a, A: EntryAsker> {
    pub(crate) asker: &'a A,
    pub(crate) after: &'a Entry,
}

impl<'a, A: EntryAsker> AskerAfter<'a, A> {
    // Whether the item, where it is a value, may be added.
    fn asks_to_add(&self, item: Item<'_>) -> bool
        ensures exact { result ≡ asks_after (A.asker self.now.asker.now) self.now.after.now
            (protected_of item.entry) permission.Add }
    {
        match item {
            Item::Value(kind, value) => self.asker.adds(self.after, kind, value),
            Item::Entry | Item::Kind(_) => self.asker.allows(item, Permission::Add),
        }
    }
}

impl<'a, A: EntryAsker> Ask for AskerAfter<'a, A> {
    ghost use Rattle.entry_changes.specs.Change.{asks_after};

    ghost asks = { λ asker. asks_after (A.asker asker.asker.now) asker.after.now };

    fn asks(&self, item: Item<'_>, permission: Permission) -> bool {
        match permission {
            Permission::Add => self.asks_to_add(item),
            _ => self.asker.allows(item, permission),
        }
    }
}
