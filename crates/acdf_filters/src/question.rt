//! A question to the decision function.

use crate::asking::{Item, Requester};
use aci_item::Permission;
use dir_tree::dn_names::Dn;
use dir_tree::{Entry, Tree};

/// Whether the requester is a member of a group.
#[derive(Drop)]
pub struct Membership {
    pub group: Dn,
    pub member: bool,
}

/// What is asked of an entry, and what is looked at to answer it.
#[derive(Clone, Copy)]
pub struct Question<'a> {
    pub who: &'a Requester,
    pub entry: &'a Entry,
    pub item: Item<'a>,
    pub permission: Permission,
    /// The entry that the whole change would leave, where it is more than the entry with the item.
    pub after: Option<&'a Entry>,
    /// The tree, of which the groups are entries.
    pub tree: &'a Tree,
    /// Groups of which the memberships are known: of any other group the tree is asked.
    pub known: &'a [Membership],
}
