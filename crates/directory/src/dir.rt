//! Directories.

ghost use Rattle.std.specs.Prelude.{◌≡◌, ◌≢◌, [], true, Some, IfOk, IfSome, IsSome, map};
ghost use Rattle.std.specs.List.{AllByRecursion};
ghost use Rattle.dir_tree.specs.Entry.{EntryInformation};
ghost use Rattle.dir_tree.specs.tree.Numbered.{entry_of, entries_of, entries_at, is_called};
ghost use Rattle.dir_tree.specs.Effects.{Inserts, Removes, Replaces, ReplacesAllowed};
ghost use Rattle.acdf_filters.specs.admin_scope.InForce.{in_force};
ghost use Rattle.acdf_filters.specs.Asking.{protected_of};
ghost use Rattle.acdf_filters.specs.Granted.{granted, granted_after, granted_new};
ghost use Rattle.acdf_filters.specs.weighing.Weighing.{AreMemberships};
ghost use Rattle.acdf_filters.specs.admin_scope.InForce.{AreInForce};
ghost use Rattle.value_index.specs.Holders.{HasHolders};

use crate::entries::NumberedEntry;
use acdf_filters::aci_item::Permission;
use acdf_filters::{Item, Membership, Requester};
use dir_tree::dn_names::Value;
use dir_tree::schema_tables::AttrId;
use dir_tree::{Entry, EntryNo, InsertRefusal, NoMemory, RemoveRefusal, ReplaceRefusal, Tree};
use std::alloc::Global;

/// What a value is added to: its type, the value, and the entry that the change would leave.
#[derive(Clone, Copy)]
pub struct Addition<'a> {
    pub kind: AttrId,
    pub value: &'a Value,
    pub after: &'a Entry,
}

/// A directory. Contracts see its numbered entries.
pub trait Dir {
    ghost use Rattle.std.specs.Prelude.{List};
    ghost use Rattle.dir_tree.specs.tree.Numbered.{Numbered};

    ghost rows: { Self → List Numbered };

    /// The tree of the entries.
    fn tree(&self) -> &Tree
        ensures exact { result.now ≡ rows self.now };

    /// Whether the requester has the permission for the item of the target (X.501 18.8). A value that is added is added
    /// alone. The groups that are known are not asked for. No memory is taken.
    fn decide(
        &self,
        who: &Requester,
        known: &[Membership],
        target: NumberedEntry<'_>,
        item: Item<'_>,
        permission: Permission,
    ) -> bool
        requires known { AreMemberships (entries_of (rows self.now)) who.now.name known.now }
        requires found { entry_of target.number.0 (rows self.now) ≡ Some target.entry.now }
        ensures exact { result ≡ granted (entries_of (rows self.now)) who.now target.entry.entry.now
            (protected_of item.entry) permission };

    /// Whether the requester may add the value to the target (X.501 18.8), as part of a change that would leave another
    /// entry in its place: in that one maxValueCount and restrictedBy count values. The groups that are known are not asked
    /// for. No memory is taken.
    fn decide_after(
        &self,
        who: &Requester,
        known: &[Membership],
        target: NumberedEntry<'_>,
        addition: Addition<'_>,
    ) -> bool
        requires known { AreMemberships (entries_of (rows self.now)) who.now.name known.now }
        requires found { entry_of target.number.0 (rows self.now) ≡ Some target.entry.now }
        ensures exact { result ≡ granted_after (entries_of (rows self.now)) who.now target.entry.entry.now
            addition.entry.after.now addition.entry.kind.0 addition.entry.value.now };

    /// The numbers of the access control subentries in force for an entry that is to be added (X.501 18.3): its areas
    /// begin at its superior, and for a subentry there are none. Found once for many decisions, they hold as long as the
    /// directory stays. The error comes where memory is wanted.
    fn in_force_new(&self, alloc: Global, entry: &Entry) -> Result<Vec<EntryNo>, NoMemory>
        ensures ok { IfOk result (λ found.
            AreInForce (rows self.now) entry.now (map (λ no. no.0) found.items)) };

    /// Whether the requester has the permission for the item of an entry that is to be added (X.501 18.8), by the numbers
    /// of the subentries in force for it: its own entryACI does not count; of a subentry the superior's subentryACI alone
    /// counts. No memory is taken.
    fn decide_new(
        &self,
        who: &Requester,
        known: &[Membership],
        entry: &Entry,
        in_force: &[EntryNo],
        item: Item<'_>,
        permission: Permission,
    ) -> bool
        requires known { AreMemberships (entries_of (rows self.now)) who.now.name known.now }
        requires in_force { AreInForce (rows self.now) entry.now (map (λ no. no.0) in_force.now) }
        ensures exact { result
            ≡ granted_new (entries_of (rows self.now)) who.now entry.now (protected_of item.entry) permission };

    /// Which of the groups that the directory's items name the requester is a member of, asked once for many decisions:
    /// they hold as long as the directory stays. None for an anonymous requester. Which groups are among them has no
    /// part in what is decided. The error comes where memory is wanted.
    fn memberships(&self, alloc: Global, who: &Requester) -> Result<Vec<Membership>, NoMemory>
        ensures ok { IfOk result (λ known.
            AreMemberships (entries_of (rows self.now)) who.now.name known.items) };

    /// The numbers of the access control subentries that are in force for the entry of the number (X.501 18.3), which the
    /// directory keeps. Each of them is in use.
    fn in_force(&self, number: EntryNo) -> &[EntryNo]
        ensures exact { (entry : EntryInformation) → entry_of number.0 (rows self.now) ≡ Some entry
            → entries_at (rows self.now) (map (λ no. no.0) result.now) ≡ in_force (entries_of (rows self.now)) entry }
        ensures live { (entry : EntryInformation) → entry_of number.0 (rows self.now) ≡ Some entry
            → AllByRecursion (λ id. IsSome (entry_of id (rows self.now))) (map (λ no. no.0) result.now) };

    /// Numbers among which each entry is that has a value of the type with the key. There may be others among them, of
    /// entries without the value or in no use, and a number may come twice. None where the directory does not know them, or
    /// they are many: who asks then looks at all entries. The error comes where memory is wanted.
    fn holders(
        &self,
        alloc: Global,
        kind: AttrId,
        key: &[u8],
    ) -> Result<Option<Vec<EntryNo>>, NoMemory>
        ensures ok { IfOk result (λ found. IfSome found (λ numbers.
            HasHolders kind.0 key.now (rows self.now) numbers.items)) };

    /// Puts the entry in, and gives the number by which it is known: one that is not in use.
    ///
    /// Each refusal comes in exactly one case, and of several the first: `NameTaken` where the name is that of an
    /// entry, `NoSuperior` where there are entries and none of them is the superior, `Full` where there are 200,000.
    /// `NoMemory`, where memory is refused, may come before these, and then nothing has changed. The name may not be
    /// empty; the first entry, of any such name, is the suffix.
    fn insert(&mut self, alloc: Global, entry: Entry) -> Result<EntryNo, InsertRefusal>
        requires named { entry.name ≢ [] }
        ensures exact { Inserts entry (rows self.old) result (rows self.new) };

    /// Takes the entry of the number out, which then is not in use.
    ///
    /// Each refusal comes in exactly one case: `Absent` for a number that is not in use, and `HasBelow` for an entry
    /// that has entries below it. `NoMemory`, where memory is refused, may come before these, and then nothing has
    /// changed.
    fn remove(&mut self, alloc: Global, no: EntryNo) -> Result<Entry, RemoveRefusal>
        ensures exact { Removes no.0 (rows self.old) result (rows self.new) };

    /// Gives the entry's place to another, which is known by the same number and may stand below another superior. The
    /// memory that the attributes of the other do not need is given back.
    ///
    /// Each refusal comes in exactly one case, and of several the first: `Absent` for a number that is not in use,
    /// `NameTaken` where the new name is that of another entry, `NoSuperior` for the empty name and, unless the entry is
    /// the suffix, for one whose superior is not the name of another entry, and `HasBelow` where the new name is not the
    /// same as the old one and entries stand below. `NoMemory`, where memory is refused, may come before these, and then
    /// nothing has changed.
    fn replace(&mut self, alloc: Global, no: EntryNo, entry: Entry) -> Result<Entry, ReplaceRefusal>
        ensures exact { Replaces no.0 entry (rows self.old) result (rows self.new) };

    /// Gives the entry's place to another of its name, as `replace` does. No name is looked at: such an entry is never
    /// refused, and the error comes where memory is wanted.
    fn revise(&mut self, alloc: Global, no: EntryNo, entry: Entry) -> Result<Entry, NoMemory>
        requires named { is_called no.0 entry.name (rows self.old) ≡ true }
        ensures exact { ReplacesAllowed no.0 entry (rows self.old) result (rows self.new) };
}
