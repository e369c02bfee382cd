//! Who asks, and what is asked.

ghost use Rattle.std.specs.Prelude.{◌≡◌, Some, IfOk, IfSome};
ghost use Rattle.std.specs.Option.{option_map};
ghost use Rattle.dir_tree.specs.tree.Trees.{named_in};
ghost use Rattle.dir_tree.specs.tree.Numbered.{entry_of, entries_of, find_name};
ghost use Rattle.acdf_filters.specs.Asking.{protected_of, asked_on};
ghost use Rattle.acdf_filters.specs.Granted.{granted, granted_after};
ghost use Rattle.acdf_filters.specs.weighing.Weighing.{KnowsGroups, asked_of};
ghost use Rattle.read_model.specs.Views.{row_of};
ghost use Rattle.read_model.specs.Selecting.{permits_of};
ghost use Rattle.directory.specs.Asking.{Knows, knows-prop};
ghost use Rattle.directory.specs.Targets.{is_suffix};

use crate::dir::{Addition, Dir};
use crate::entries::{NumberedEntry, find_entry, is_suffix};
use acdf_filters::aci_item::Permission;
use acdf_filters::{Item, Membership, Question, Requester};
use dir_tree::dn_names::{Dn, Value};
use dir_tree::schema_tables::AttrId;
use dir_tree::{Entry, EntryNo, NoMemory};
use read_model::filter_match::Allow;
use std::alloc::Global;

/// A requester asks a directory, with the groups in which it is known to be or not to be: what
/// [`Dir::memberships`](crate::dir::Dir::memberships) says, once for all that one request asks.
#[derive(Drop)]
pub struct Asking<'a, D: Dir> {
    pub dir: &'a D,
    pub who: &'a Requester,
    pub known: Vec<Membership>,
    pub ghost memberships: { Knows (D.rows dir.now) who.now known.items } by { knows-prop (D.rows dir.now) who.now known.items },
}

/// An entry of the directory, with its number, as who asks is asked about it.
#[derive(Drop)]
pub struct Target<'a, 'b, D: Dir> {
    pub asking: &'b Asking<'a, D>,
    pub number: EntryNo,
    pub entry: &'a Entry,
    pub ghost found: { entry_of number.0 (D.rows asking.now.dir.now) ≡ Some entry.now },
}

impl<'a, D: Dir> Asking<'a, D> {
    /// The requester asks the directory. The error comes where memory is wanted.
    pub fn new(alloc: Global, dir: &'a D, who: &'a Requester) -> Result<Asking<'a, D>, NoMemory>
        ensures dir { IfOk result (λ asking. asking.dir.now ≡ dir.now) }
        ensures who { IfOk result (λ asking. asking.who.now ≡ who.now) }
    {
        let known = dir.memberships(alloc, who)?;
        Ok(Asking { dir, who, known })
    }

    /// The entry of the name; None exactly where there is none.
    pub fn find<'b>(&'b self, name: &Dn) -> Option<Target<'a, 'b, D>>
        ensures exact { option_map (λ target. target.entry.now) result
            ≡ named_in name.now (entries_of (D.rows self.now.dir.now)) }
        ensures number { option_map (λ target. target.number.0) result ≡ find_name name.now (D.rows self.now.dir.now) }
        ensures asking { IfSome result (λ target. target.asking.now ≡ self.now) }
    {
        match find_entry(self.dir.tree(), name) {
            Some(found) => Some(Target {
                asking: self,
                number: found.number,
                entry: found.entry,
            }),
            None => None,
        }
    }

    /// The entry of the number; None exactly where the number is not in use.
    pub fn at<'b>(&'b self, number: EntryNo) -> Option<Target<'a, 'b, D>>
        ensures exact { option_map (λ target. target.entry.now) result ≡ entry_of number.0 (D.rows self.now.dir.now) }
        ensures number { IfSome result (λ target. target.number ≡ number) }
        ensures asking { IfSome result (λ target. target.asking.now ≡ self.now) }
    {
        match self.dir.tree().at(number) {
            Some(entry) => Some(Target {
                asking: self,
                number,
                entry,
            }),
            None => None,
        }
    }
}

impl<'a, 'b, D: Dir> Target<'a, 'b, D> {
    /// The entry with its number.
    pub fn numbered(&self) -> NumberedEntry<'a>
        ensures number { result.number ≡ self.now.number }
        ensures entry { result.entry.now ≡ self.now.entry.now }
    {
        NumberedEntry {
            number: self.number,
            entry: self.entry,
        }
    }

    /// Whether the entry is the suffix.
    pub fn is_suffix(&self) -> bool
        ensures exact { result ≡ is_suffix self.now.entry.now.name (entries_of (D.rows self.now.asking.now.dir.now)) }
    {
        is_suffix(self.asking.dir.tree(), self.numbered())
    }

    /// What the access control decision function is asked of the item of the entry (X.501 18.8.1).
    pub fn question<'c>(&'c self, item: Item<'c>, permission: Permission) -> Question<'c>
        ensures asked { asked_of result ≡ asked_on self.now.asking.now.who.now self.now.entry.now
            (protected_of item.entry) permission }
        ensures groups { KnowsGroups result }
        ensures tree { result.tree.now ≡ D.rows self.now.asking.now.dir.now }
        ensures entry { result.entry.now ≡ self.now.entry.now }
    {
        Question {
            who: self.asking.who,
            entry: self.entry,
            item,
            permission,
            after: None,
            tree: self.asking.dir.tree(),
            known: &self.asking.known,
        }
    }

    /// Whether the requester has the permission for the item of the entry (X.501 18.8).
    pub fn allows(&self, item: Item<'_>, permission: Permission) -> bool
        ensures exact { result ≡ granted (entries_of (D.rows self.now.asking.now.dir.now)) self.now.asking.now.who.now
            self.now.entry.now (protected_of item.entry) permission }
    {
        let asking = self.asking;
        asking.dir.decide(asking.who, &asking.known, self.numbered(), item, permission)
    }

    /// Whether the requester may add the value to the attribute of the type, where the entry would be this one afterwards.
    pub fn adds(&self, after: &Entry, kind: AttrId, value: &Value) -> bool
        ensures exact { result ≡ granted_after (entries_of (D.rows self.now.asking.now.dir.now))
            self.now.asking.now.who.now self.now.entry.now after.now kind.0 value.now }
    {
        let asking = self.asking;
        let addition = Addition { kind, value, after };
        asking
            .dir
            .decide_after(asking.who, &asking.known, self.numbered(), addition)
    }
}

impl<'a, 'b, D: Dir> Allow for Target<'a, 'b, D> {
    ghost permits = { λ target. permits_of (row_of (entries_of (D.rows target.asking.now.dir.now))
        target.asking.now.who.now target.entry.now) };

    fn kind(&self, kind: AttrId) -> bool {
        self.allows(Item::Kind(kind), Permission::FilterMatch)
    }

    fn value(&self, kind: AttrId, value: &Value) -> bool {
        self.allows(Item::Value(kind, value), Permission::FilterMatch)
    }
}
