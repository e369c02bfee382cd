//! Entries taken out.

ghost use Rattle.std.specs.Prelude.{◌≡◌, Some, None, IfOk, IfErr, OnOk, true, false};
ghost use Rattle.std.specs.Option.{option_map_or};
ghost use Rattle.dir_tree.specs.Removals.{IsRemovable};

use crate::entry::Entry;
use crate::number::EntryNo;
use crate::refusals::RemoveRefusal;
use crate::slots::take_entry;
use crate::subentries::drop_number;
use crate::tree::Tree;
use dn_names::Dn;
use std::ops::Bound;

impl Tree {
    ghost use Rattle.dir_tree.specs.tree.Trees.{has_below};
    ghost use Rattle.dir_tree.specs.tree.Numbered.{entries_of, entry_of};
    ghost use Rattle.dir_tree.specs.Refusals.{remove_refusal};
    ghost use Rattle.dir_tree.specs.Effects.{IsRemoved, RemovesWithoutMemory};

    /// Takes the entry of the number out, which then is not in use. Takes no memory.
    ///
    /// Each refusal comes in exactly one case: `Absent` for a number that is not in use, and `HasBelow` for an entry
    /// that has entries below it. `NoMemory` never comes.
    pub fn remove(&mut self, no: EntryNo) -> Result<Entry, RemoveRefusal>
        ensures exact { RemovesWithoutMemory no.0 self.old result self.new }
    {
        match self.removable(no) {
            Ok(()) => Ok(self.take_out(no)),
            Err(refusal) => Err(refusal),
        }
    }

    // That the number is in use, and no entry stands below its own.
    fn removable(&self, no: EntryNo) -> Result<(), RemoveRefusal>
        ensures ok { OnOk result (IsRemovable no.0 self.now) }
        ensures exact { OnOk result (remove_refusal no.0 self.now ≡ None) }
        ensures cause { IfErr result (λ refusal. remove_refusal no.0 self.now ≡ Some refusal) }
    {
        match self.at(no) {
            Some(entry) => {
                if self.has_any_below(entry.name()) {
                    Err(RemoveRefusal::HasBelow)
                } else {
                    Ok(())
                }
            }
            None => Err(RemoveRefusal::Absent),
        }
    }

    /// Whether an entry stands below the entry of the number; false for a number that is not in use. Takes no memory.
    pub fn has_below(&self, no: EntryNo) -> bool
        ensures exact { result
            ≡ option_map_or (λ entry. has_below entry.name (entries_of self.now)) (entry_of no.0 self.now) false }
    {
        match self.at(no) {
            Some(entry) => self.has_any_below(entry.name()),
            None => false,
        }
    }

    /// Whether an entry stands below the name.
    pub(crate) fn has_any_below(&self, name: &Dn) -> bool
        ensures exact { result ≡ has_below name.now (entries_of self.now) }
    {
        let path = name.path();
        let mut after = self.places.range((Bound::Excluded(path), Bound::Unbounded));
        match after.next() {
            Some((next, _)) => next.as_slice().starts_with(path.as_slice()),
            None => false,
        }
    }

    // Takes the entry of the number out, and its path key.
    fn take_out(&mut self, no: EntryNo) -> Entry
        requires { IsRemovable no.0 self.old }
        ensures exact { IsRemoved no.0 self.old result self.new }
    {
        let entry = take_entry(&mut self.slots, no.0);
        let _number = self.places.remove(entry.name().path().as_slice());
        self.low = self.low.min(no.0 as usize);
        drop_number(&mut self.subentries, no);
        entry
    }
}
