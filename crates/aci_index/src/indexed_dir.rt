//! A directory that keeps what decisions need, and changes it by small steps.

ghost use Rattle.std.specs.Prelude.{◌≡◌, Some, IfOk, map};
ghost use Rattle.dir_tree.specs.tree.Numbered.{entry_of, entries_of, ids_of, subentry_rows};
ghost use Rattle.acdf_filters.specs.Asking.{protected_of};
ghost use Rattle.acdf_filters.specs.Granted.{granted};
ghost use Rattle.acdf_filters.specs.weighing.Weighing.{AreMemberships};

use crate::posting::{insert_posted, remove_posted, replace_posted};
use crate::successor::Successor;
use acdf_filters::aci_item::Permission;
use acdf_filters::{Item, Membership, Question, Requester};
use aci_lists::{
    Holdings, decide_by, decide_new_by, hold, in_force_at, in_force_new_by, memberships_in,
};
use dir_tree::schema_tables::AttrId;
use dir_tree::{Entry, EntryNo, InsertRefusal, NoMemory, RemoveRefusal, ReplaceRefusal, Tree};
use directory::{Addition, Dir, NumberedEntry};
use std::alloc::{AllocError, Global};
use std::marker::Model;
use value_index::{ValueIndex, index_of};

/// A tree, and what is kept beside it: what decisions need, and an index of the values of attributes. Contracts see the
/// numbered entries.
#[derive(Drop)]
pub struct IndexedDir {
    tree: Tree,
    held: Holdings,
    index: ValueIndex,
}

impl Model for IndexedDir {
    ghost use Rattle.std.specs.Prelude.{List};
    ghost use Rattle.dir_tree.specs.tree.Numbered.{Numbered};
    ghost use Rattle.aci_index.specs.Kept.{AreKept};

    ghost Value = { List Numbered };

    ghost view = { λ dir. dir.tree };

    ghost invariant = { λ dir. AreKept dir.held dir.index dir.tree };
}

impl IndexedDir {
    /// The directory of a tree. The error comes where memory is wanted.
    pub fn new(alloc: Global, tree: Tree) -> Result<IndexedDir, NoMemory>
        ensures ok { IfOk result (λ dir. dir ≡ tree) }
    {
        let held = hold(alloc, &tree)?;
        let index = index_of(alloc, &tree)?;
        Ok(IndexedDir { tree, held, index })
    }

    /// The numbers of the access control subentries, in the order of the names.
    pub fn subentries(&self) -> &[EntryNo]
        ensures exact { map (λ no. no.0) result.now ≡ ids_of (subentry_rows self.now) }
    {
        self.tree.access_subentries()
    }

    // Whether the requester has the permission for the item of an entry, which has the number.
    #[tactic(auto, unfolding(acdf_filters::specs::Granted::granted))]
    fn decide_entry<'a>(
        &'a self,
        who: &'a Requester,
        known: &'a [Membership],
        number: EntryNo,
        entry: &'a Entry,
        item: Item<'a>,
        permission: Permission,
    ) -> bool
        requires known { AreMemberships (entries_of self.now) who.now.name known.now }
        requires entry { entry_of number.0 self.now ≡ Some entry.now }
        ensures exact { result ≡ granted (entries_of self.now) who.now entry.now (protected_of item.entry) permission }
    {
        let question = Question {
            who,
            entry,
            item,
            permission,
            after: None,
            tree: &self.tree,
            known,
        };
        decide_by(&question, &self.held.lists, number)
    }
}

impl Dir for IndexedDir {
    ghost rows = { λ dir. dir };

    fn tree(&self) -> &Tree {
        &self.tree
    }

    fn decide(
        &self,
        who: &Requester,
        known: &[Membership],
        target: NumberedEntry<'_>,
        item: Item<'_>,
        permission: Permission,
    ) -> bool {
        self.decide_entry(who, known, target.number, target.entry, item, permission)
    }

    #[tactic(auto, unfolding(acdf_filters::specs::Granted::granted_after))]
    fn decide_after(
        &self,
        who: &Requester,
        known: &[Membership],
        target: NumberedEntry<'_>,
        addition: Addition<'_>,
    ) -> bool {
        let question = Question {
            who,
            entry: target.entry,
            item: Item::Value(addition.kind, addition.value),
            permission: Permission::Add,
            after: Some(addition.after),
            tree: &self.tree,
            known,
        };
        decide_by(&question, &self.held.lists, target.number)
    }

    fn in_force_new(&self, alloc: Global, entry: &Entry) -> Result<Vec<EntryNo>, NoMemory> {
        in_force_new_by(alloc, &self.tree, &self.held.subtrees, entry)
    }

    #[tactic(auto, unfolding(acdf_filters::specs::Granted::granted_new))]
    fn decide_new(
        &self,
        who: &Requester,
        known: &[Membership],
        entry: &Entry,
        in_force: &[EntryNo],
        item: Item<'_>,
        permission: Permission,
    ) -> bool {
        let question = Question {
            who,
            entry,
            item,
            permission,
            after: Some(entry),
            tree: &self.tree,
            known,
        };
        decide_new_by(&question, &self.held.lists, in_force)
    }

    fn memberships(&self, alloc: Global, who: &Requester) -> Result<Vec<Membership>, NoMemory> {
        memberships_in(alloc, &self.tree, who, &self.held.groups)
    }

    fn in_force(&self, number: EntryNo) -> &[EntryNo] {
        in_force_at(&self.held.lists, number)
    }

    fn holders(
        &self,
        alloc: Global,
        kind: AttrId,
        key: &[u8],
    ) -> Result<Option<Vec<EntryNo>>, NoMemory> {
        self.tree.entries_form_a_tree();
        self.index.holders(alloc, kind, key)
    }

    fn insert(&mut self, alloc: Global, entry: Entry) -> Result<EntryNo, InsertRefusal> {
        insert_posted(
            alloc,
            &mut self.tree,
            &mut self.held,
            &mut self.index,
            entry,
        )
    }

    fn remove(&mut self, alloc: Global, no: EntryNo) -> Result<Entry, RemoveRefusal> {
        remove_posted(alloc, &mut self.tree, &mut self.held, &mut self.index, no)
    }

    fn replace(
        &mut self,
        alloc: Global,
        no: EntryNo,
        entry: Entry,
    ) -> Result<Entry, ReplaceRefusal> {
        let successor = Successor {
            number: no,
            entry,
            keeps_name: false,
        };
        replace_posted(
            alloc,
            &mut self.tree,
            &mut self.held,
            &mut self.index,
            successor,
        )
    }

    fn revise(&mut self, alloc: Global, no: EntryNo, entry: Entry) -> Result<Entry, NoMemory> {
        let successor = Successor {
            number: no,
            entry,
            keeps_name: true,
        };
        match replace_posted(
            alloc,
            &mut self.tree,
            &mut self.held,
            &mut self.index,
            successor,
        ) {
            Ok(old) => Ok(old),
            Err(_) => Err(AllocError),
        }
    }
}
