//! Entries that take another's place.

ghost use Rattle.std.specs.Prelude.{◌≡◌, ◌&&◌, not, true, false, Some, None, IfErr, OnOk};
ghost use Rattle.dn_names.specs.NameOrder.{is_same};
ghost use Rattle.dir_tree.specs.Removals.{IsReplaceable};

use crate::entry::{Entry, NoMemory};
use crate::number::EntryNo;
use crate::paths::{copy_path, copy_places};
use crate::reader::{TreeReader, Unread};
use crate::refusals::ReplaceRefusal;
use crate::slots::replace_entry;
use crate::subentries::relisted;
use crate::tree::Tree;
use dn_names::{Dn, same};
use std::alloc::AllocError;
use std::mem::replace;

impl Tree {
    ghost use Rattle.dir_tree.specs.tree.Trees.{has_name, has_below, superior_name};
    ghost use Rattle.dir_tree.specs.tree.Numbered.{entries_of, entry_of, is_called, suffix_of, without};
    ghost use Rattle.dir_tree.specs.Scope.{is_number};
    ghost use Rattle.dir_tree.specs.Refusals.{lacks_place, refusal_in_place, replace_refusal};
    ghost use Rattle.dir_tree.specs.Effects.{Replaces, ReplacesAllowed};

    /// Gives the entry's place to another, which is known by the same number and may stand below another superior. The
    /// memory that the attributes of the other do not need is given back.
    ///
    /// Each refusal comes in exactly one case, and of several the first: `Absent` for a number that is not in use,
    /// `NameTaken` where the new name is that of another entry, `NoSuperior` for the empty name and, unless the entry is
    /// the suffix, for one whose superior is not the name of another entry, and `HasBelow` where the new name is not the
    /// same as the old one and entries stand below. `NoMemory` may come where none of these does.
    pub fn replace(&mut self, no: EntryNo, entry: Entry) -> Result<Entry, ReplaceRefusal>
        ensures exact { Replaces no.0 entry self.old result self.new }
    {
        match self.replaceable(no, entry.name()) {
            Ok(()) => {
                let mut entry = entry;
                entry.fit();
                match self.change(no, entry) {
                    Ok(old) => Ok(old),
                    Err(_) => Err(ReplaceRefusal::NoMemory),
                }
            }
            Err(refusal) => Err(refusal),
        }
    }

    /// Gives the entry's place to another, as `replace` does, and lets the reader read the tree as it then is. Where the
    /// reader wants memory, the refusal is `NoMemory`, and the tree is put back as it was, which takes no memory.
    pub fn replace_read<R: TreeReader>(
        &mut self,
        no: EntryNo,
        entry: Entry,
        reader: &mut R,
    ) -> Result<Entry, ReplaceRefusal>
        ensures exact { Replaces no.0 entry self.old result self.new }

        // What the reader made is of the tree as it is now.
        ensures read { OnOk result (R.has_read reader.old reader.new self.new) }
    {
        match self.replaceable(no, entry.name()) {
            Ok(()) => {
                let mut entry = entry;
                entry.fit();
                match self.change_read(no, entry, reader) {
                    Ok(old) => Ok(old),
                    Err(_) => Err(ReplaceRefusal::NoMemory),
                }
            }
            Err(refusal) => Err(refusal),
        }
    }

    /// Whether the number is that of an entry of the name; false where it is not in use.
    pub fn is_called(&self, no: EntryNo, name: &Dn) -> bool
        ensures exact { result ≡ is_called no.0 name.now self.now }
    {
        match self.at(no) {
            Some(old) => same(name, old.name()),
            None => false,
        }
    }

    /// Gives the entry's place to another of its name, as `replace` does. No name is looked at: such an entry is never
    /// refused, and the error comes where memory is wanted.
    pub fn revise(&mut self, no: EntryNo, entry: Entry) -> Result<Entry, NoMemory>
        requires named { is_called no.0 entry.name self.old ≡ true }
        ensures exact { ReplacesAllowed no.0 entry self.old result self.new }
        ensures allowed { replace_refusal no.0 entry.name self.old ≡ None }
    {
        self.revise_read(no, entry, &mut Unread)
    }

    /// Gives the entry's place to another of its name, as `revise` does, and lets the reader read the tree as it then is.
    /// Where the reader wants memory, the tree is put back as it was, which takes no memory.
    pub fn revise_read<R: TreeReader>(
        &mut self,
        no: EntryNo,
        entry: Entry,
        reader: &mut R,
    ) -> Result<Entry, NoMemory>
        requires named { is_called no.0 entry.name self.old ≡ true }
        ensures exact { ReplacesAllowed no.0 entry self.old result self.new }
        ensures allowed { replace_refusal no.0 entry.name self.old ≡ None }

        // What the reader made is of the tree as it is now.
        ensures read { OnOk result (R.has_read reader.old reader.new self.new) }
    {
        self.entries_form_a_tree();
        let mut entry = entry;
        entry.fit();
        self.change_here(no, entry, reader)
    }

    // That an entry of the name may take the place of the entry of the number.
    fn replaceable(&self, no: EntryNo, name: &Dn) -> Result<(), ReplaceRefusal>
        ensures ok { OnOk result (IsReplaceable no.0 name.now self.now) }
        ensures exact { OnOk result (replace_refusal no.0 name.now self.now ≡ None) }
        ensures cause { IfErr result (λ refusal.
            replace_refusal no.0 name.now self.now ≡ Some refusal) }
    {
        match self.at(no) {
            Some(old) => match self.refusal_in_place(no, name, old) {
                Some(refusal) => Err(refusal),
                None => Ok(()),
            },
            None => Err(ReplaceRefusal::Absent),
        }
    }

    // Why an entry of the name does not take the place of the entry of the number.
    fn refusal_in_place(&self, no: EntryNo, name: &Dn, old: &Entry) -> Option<ReplaceRefusal>
        requires { entry_of no.0 self.now ≡ Some old.now }
        ensures exact { result ≡ refusal_in_place no.0 name.now (Some old.now) self.now }
    {
        if self.is_taken(no, name) {
            Some(ReplaceRefusal::NameTaken)
        } else if self.lacks_place(no, name) {
            Some(ReplaceRefusal::NoSuperior)
        } else if self.takes_along(name, old.name()) {
            Some(ReplaceRefusal::HasBelow)
        } else {
            None
        }
    }

    // Whether an entry other than that of the number has the name.
    fn is_taken(&self, no: EntryNo, name: &Dn) -> bool
        ensures exact { result ≡ has_name name.now (entries_of (without no.0 self.now)) }
    {
        self.entries_form_a_tree();
        match self.find(name) {
            Some(other) => other.0 != no.0,
            None => false,
        }
    }

    // Whether the name is the empty one, or the entry of the number is not the suffix and no other entry is the superior
    // of the name.
    fn lacks_place(&self, no: EntryNo, name: &Dn) -> bool
        ensures exact { result ≡ lacks_place no.0 name.now self.now }
    {
        if name.len() == 0 {
            true
        } else {
            !self.is_suffix(no) && !self.has_other_above(no, name)
        }
    }

    // Whether the number is that of the suffix.
    fn is_suffix(&self, no: EntryNo) -> bool
        ensures exact { result ≡ is_number no.0 (suffix_of self.now) }
    {
        match self.suffix() {
            Some(first) => first.0 == no.0,
            None => false,
        }
    }

    // Whether an entry other than that of the number is the superior of the name.
    fn has_other_above(&self, no: EntryNo, name: &Dn) -> bool
        ensures exact { result ≡ has_name (superior_name name.now) (entries_of (without no.0 self.now)) }
    {
        self.entries_form_a_tree();
        match self.number_above(name) {
            Some(above) => above.0 != no.0,
            None => false,
        }
    }

    // Whether the name is another than the old one, and an entry stands below that.
    fn takes_along(&self, name: &Dn, old: &Dn) -> bool
        ensures exact { result ≡ (not (is_same name.now old.now) && has_below old.now (entries_of self.now)) }
    {
        !same(name, old) && self.has_any_below(old)
    }

    // Gives the place of the entry of the number to another.
    fn change(&mut self, no: EntryNo, entry: Entry) -> Result<Entry, AllocError>
        requires may { IsReplaceable no.0 entry.name self.old }
        ensures exact { ReplacesAllowed no.0 entry self.old result self.new }
    {
        if self.is_called(no, entry.name()) {
            self.change_here(no, entry, &mut Unread)
        } else {
            self.change_path(no, entry)
        }
    }

    // Gives the place of the entry of the number to another, and lets the reader read.
    fn change_read<R: TreeReader>(
        &mut self,
        no: EntryNo,
        entry: Entry,
        reader: &mut R,
    ) -> Result<Entry, AllocError>
        requires may { IsReplaceable no.0 entry.name self.old }
        ensures exact { ReplacesAllowed no.0 entry self.old result self.new }
        ensures read { OnOk result (R.has_read reader.old reader.new self.new) }
    {
        if self.is_called(no, entry.name()) {
            self.change_here(no, entry, reader)
        } else {
            self.change_path_read(no, entry, reader)
        }
    }

    // Gives the place of the entry of the number to another of the same name: the path keys stay.
    fn change_here<R: TreeReader>(
        &mut self,
        no: EntryNo,
        entry: Entry,
        reader: &mut R,
    ) -> Result<Entry, AllocError>
        requires may { IsReplaceable no.0 entry.name self.old }
        requires called { is_called no.0 entry.name self.old ≡ true }
        ensures exact { ReplacesAllowed no.0 entry self.old result self.new }
        ensures read { OnOk result (R.has_read reader.old reader.new self.new) }
    {
        let numbers = relisted(&self.slots, &self.subentries, &entry, no)?;
        let numbers = replace(&mut self.subentries, numbers);
        let old = replace_entry(&mut self.slots, no.0, entry);
        match reader.read(self) {
            Ok(()) => Ok(old),
            Err(error) => {
                let _new = replace_entry(&mut self.slots, no.0, old);
                self.subentries = numbers;
                Err(error)
            }
        }
    }

    // Gives the place of the entry of the number to one of another name: its path key comes in before the old one goes.
    fn change_path(&mut self, no: EntryNo, entry: Entry) -> Result<Entry, AllocError>
        requires may { IsReplaceable no.0 entry.name self.old }
        requires called { is_called no.0 entry.name self.old ≡ false }
        ensures exact { ReplacesAllowed no.0 entry self.old result self.new }
    {
        let path = copy_path(entry.name())?;
        let numbers = relisted(&self.slots, &self.subentries, &entry, no)?;
        self.places.insert(path, no.0)?;
        self.subentries = numbers;
        let old = replace_entry(&mut self.slots, no.0, entry);
        let _number = self.places.remove(old.name().path().as_slice());
        Ok(old)
    }

    // Gives the place of the entry of the number to one of another name, and lets the reader read: its path key comes
    // into a copy of the map before the old one goes, so that all can be put back without memory.
    fn change_path_read<R: TreeReader>(
        &mut self,
        no: EntryNo,
        entry: Entry,
        reader: &mut R,
    ) -> Result<Entry, AllocError>
        requires may { IsReplaceable no.0 entry.name self.old }
        requires called { is_called no.0 entry.name self.old ≡ false }
        ensures exact { ReplacesAllowed no.0 entry self.old result self.new }
        ensures read { OnOk result (R.has_read reader.old reader.new self.new) }
    {
        let path = copy_path(entry.name())?;
        let mut places = copy_places(&self.places)?;
        places.insert(path, no.0)?;
        let numbers = relisted(&self.slots, &self.subentries, &entry, no)?;
        let numbers = replace(&mut self.subentries, numbers);
        let old = replace_entry(&mut self.slots, no.0, entry);
        let _number = places.remove(old.name().path().as_slice());
        let places = replace(&mut self.places, places);
        match reader.read(self) {
            Ok(()) => Ok(old),
            Err(error) => {
                let _new = replace_entry(&mut self.slots, no.0, old);
                self.subentries = numbers;
                self.places = places;
                Err(error)
            }
        }
    }
}
