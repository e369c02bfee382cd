//! Who asks of an entry that is to be added.

ghost use Rattle.std.specs.Prelude.{◌≡◌, map, IfOk};
ghost use Rattle.std.proofs.Props.{props};
ghost use Rattle.dir_tree.specs.tree.Numbered.{entries_of};
ghost use Rattle.acdf_filters.specs.Asking.{protected_of};
ghost use Rattle.acdf_filters.specs.Granted.{granted_new};
ghost use Rattle.acdf_filters.specs.admin_scope.InForce.{AreInForce};

use crate::asking::Asking;
use crate::dir::Dir;
use acdf_filters::Item;
use acdf_filters::aci_item::Permission;
use dir_tree::{Entry, EntryNo, NoMemory};
use std::alloc::Global;

/// A requester asks of an entry that is to be added, with the access control subentries in force for it: what
/// [`Dir::in_force_new`](crate::dir::Dir::in_force_new) says, once for all that one add asks.
#[derive(Drop)]
pub struct Newcomer<'a, 'b, D: Dir> {
    pub asking: &'b Asking<'a, D>,
    pub entry: &'b Entry,
    pub in_force: Vec<EntryNo>,
    pub ghost found: { AreInForce (D.rows asking.now.dir.now) entry.now (map (λ no. no.0) in_force.items) } by { Prim.hlevel props },
}

impl<'a, 'b, D: Dir> Newcomer<'a, 'b, D> {
    /// The requester asks of the entry. The error comes where memory is wanted.
    pub fn new(
        alloc: Global,
        asking: &'b Asking<'a, D>,
        entry: &'b Entry,
    ) -> Result<Newcomer<'a, 'b, D>, NoMemory>
        ensures asking { IfOk result (λ newcomer. newcomer.asking.now ≡ asking.now) }
        ensures entry { IfOk result (λ newcomer. newcomer.entry.now ≡ entry.now) }
    {
        let in_force = asking.dir.in_force_new(alloc, entry)?;
        Ok(Newcomer {
            asking,
            entry,
            in_force,
        })
    }

    /// Whether the requester has the permission for the item of the entry (X.501 18.8): what it itself would grant
    /// doesn't count.
    pub fn allows(&self, item: Item<'_>, permission: Permission) -> bool
        ensures exact { result ≡ granted_new (entries_of (D.rows self.now.asking.now.dir.now))
            self.now.asking.now.who.now self.now.entry.now (protected_of item.entry) permission }
    {
        let asking = self.asking;
        asking.dir.decide_new(
            asking.who,
            &asking.known,
            self.entry,
            &self.in_force,
            item,
            permission,
        )
    }
}
