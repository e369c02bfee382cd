//! An entry from which values are still to be taken out.

ghost use Rattle.std.specs.Prelude.{◌≡◌, Ok, IfOk, IfErr, OnOk, [], ◌++◌, false};
ghost use Rattle.std.specs.List.{IsDistinct};
ghost use Rattle.ldap_msg.specs.plain_values.Answers.{IsFaultOf};
ghost use Rattle.dir_tree.specs.Entry.{is_match};
ghost use Rattle.entry_changes.specs.declared.kind.ChangeKind.TheVariants as change_kind;
ghost use Rattle.entry_changes.specs.Change.{are_none, changed, cause_of};
ghost use Rattle.entry_changes.specs.Steps.{left_in};

use crate::ask::{AskerAfter, EntryAsker};
use crate::change::EntryChange;
use crate::effects::take_out;
use crate::fault::{ChangeFault, NoMemory};
use crate::kind::ChangeKind;
use crate::making::{add, delete_kind, replace};
use crate::refusing::{are_none, delete_values_refusal};
use dir_tree::Entry;
use dir_tree::dn_names::Value;
use dir_tree::schema_tables::AttrId;
use std::alloc::Global;
use value_lists::Values;

/// An entry, and values of one type that are still to be taken out of it: those that go one after the other are taken
/// out together, since each by itself costs a look at all that are there.
#[derive(Drop)]
pub(crate) struct Pending {
    alloc: Global,
    entry: Entry,
    kind: AttrId,
    gone: Values,
}

// No values.
fn no_values(alloc: Global) -> Result<Values, NoMemory>
    ensures ok { IfOk result (λ values. values ≡ []) }
{
    Values::from_vec(alloc, Vec::new(alloc))
}

// Puts the values behind those that go.
fn put_all(alloc: Global, gone: &mut Values, values: &[Value]) -> Result<(), NoMemory>
    ensures ok { OnOk result (gone.new ≡ gone.old ++ values.now) }
{
    for value in values {
        gone.push(alloc, value.copy(alloc)?)?;
    }
    Ok(())
}

impl Pending {
    /// The entry, from which nothing is to be taken out yet.
    pub(crate) fn new(alloc: Global, entry: Entry) -> Result<Pending, NoMemory>
        ensures ok { IfOk result (λ pending. left_in pending ≡ entry) }
    {
        let gone = no_values(alloc)?;
        Ok(Pending {
            alloc,
            entry,
            kind: AttrId::OBJECT_CLASS,
            gone,
        })
    }

    // Takes out what is still to be taken out.
    fn settle(&mut self) -> Result<(), NoMemory>
        ensures ok { OnOk result (self.new.entry ≡ left_in self.old) }
        ensures none { OnOk result (self.new.gone ≡ []) }
    {
        take_out(self.alloc, &mut self.entry, self.kind, &self.gone)?;
        self.gone = no_values(self.alloc)?;
        Ok(())
    }

    // Sees to it that what is still to be taken out is of the type.
    fn turn_to(&mut self, kind: AttrId) -> Result<(), NoMemory>
        ensures ok { OnOk result (left_in self.new ≡ left_in self.old) }
        ensures kind { OnOk result (self.new.kind.0 ≡ kind.0) }
    {
        if kind.0 != self.kind.0 {
            self.settle()?;
            self.kind = kind;
        }
        Ok(())
    }

    // Takes out the values, of which there is one, unless that is refused.
    fn delete_values<A: EntryAsker>(
        &mut self,
        asker: &A,
        kind: AttrId,
        values: &[Value],
    ) -> Result<(), ChangeFault>
        requires given { are_none values.now ≡ false }
        ensures ok { OnOk result (changed (A.asker asker.now) (left_in self.old)
            (record { change = change_kind.Delete; kind = kind.0; values = values.now }) ≡ Ok (left_in self.new)) }
        ensures refused { IfErr result (λ fault. IsFaultOf (cause_of fault)
            (changed (A.asker asker.now) (left_in self.old)
            (record { change = change_kind.Delete; kind = kind.0; values = values.now }))) }
    {
        self.turn_to(kind)?;
        self.entry.is_good();
        let before = AskerAfter {
            asker,
            after: &self.entry,
        };
        let refusal = delete_values_refusal(&before, kind, &self.entry, &self.gone, values);
        if let Some(code) = refusal {
            return Err(ChangeFault::Refused(code));
        }
        put_all(self.alloc, &mut self.gone, values)?;
        Ok(())
    }

    // Takes out what the change says, unless that is refused.
    fn delete<A: EntryAsker>(
        &mut self,
        asker: &A,
        kind: AttrId,
        values: &[Value],
    ) -> Result<(), ChangeFault>
        ensures ok { OnOk result (changed (A.asker asker.now) (left_in self.old)
            (record { change = change_kind.Delete; kind = kind.0; values = values.now }) ≡ Ok (left_in self.new)) }
        ensures refused { IfErr result (λ fault. IsFaultOf (cause_of fault)
            (changed (A.asker asker.now) (left_in self.old)
            (record { change = change_kind.Delete; kind = kind.0; values = values.now }))) }
    {
        if !are_none(values) {
            return self.delete_values(asker, kind, values);
        }
        self.settle()?;
        delete_kind(asker, &mut self.entry, kind)
    }

    // Adds the values, unless that is refused.
    fn add<A: EntryAsker>(
        &mut self,
        asker: &A,
        kind: AttrId,
        values: &[Value],
    ) -> Result<(), ChangeFault>
        ensures ok { OnOk result (changed (A.asker asker.now) (left_in self.old)
            (record { change = change_kind.Add; kind = kind.0; values = values.now }) ≡ Ok (left_in self.new)) }
        ensures refused { IfErr result (λ fault. IsFaultOf (cause_of fault)
            (changed (A.asker asker.now) (left_in self.old)
            (record { change = change_kind.Add; kind = kind.0; values = values.now }))) }
    {
        self.settle()?;
        add(self.alloc, asker, &mut self.entry, kind, values)
    }

    // Gives the attribute the values in place of its own, unless that is refused.
    fn replace<A: EntryAsker>(
        &mut self,
        asker: &A,
        kind: AttrId,
        values: &[Value],
    ) -> Result<(), ChangeFault>
        requires distinct { IsDistinct is_match values.now }
        ensures ok { OnOk result (changed (A.asker asker.now) (left_in self.old)
            (record { change = change_kind.Replace; kind = kind.0; values = values.now })
            ≡ Ok (left_in self.new)) }
        ensures refused { IfErr result (λ fault. IsFaultOf (cause_of fault)
            (changed (A.asker asker.now) (left_in self.old)
            (record { change = change_kind.Replace; kind = kind.0; values = values.now }))) }
    {
        self.settle()?;
        replace(self.alloc, asker, &mut self.entry, kind, values)
    }

    /// Makes the change, unless it is refused.
    pub(crate) fn apply<A: EntryAsker>(
        &mut self,
        asker: &A,
        change: &EntryChange,
    ) -> Result<(), ChangeFault>
        ensures ok { OnOk result (changed (A.asker asker.now) (left_in self.old) change.now
            ≡ Ok (left_in self.new)) }
        ensures refused { IfErr result (λ fault. IsFaultOf (cause_of fault)
            (changed (A.asker asker.now) (left_in self.old) change.now)) }
    {
        let kind = change.kind();
        match change.change() {
            ChangeKind::Add => self.add(asker, kind, change.values()),
            ChangeKind::Delete => self.delete(asker, kind, change.values()),
            ChangeKind::Replace => self.replace(asker, kind, change.values()),
        }
    }

    /// The entry, from which nothing is to be taken out any more.
    pub(crate) fn into_entry(self) -> Result<Entry, NoMemory>
        ensures ok { IfOk result (λ entry. entry ≡ left_in self) }
    {
        let mut pending = self;
        pending.settle()?;
        Ok(pending.entry)
    }
}
