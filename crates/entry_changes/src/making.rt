//! One change of an entry of which nothing else is still to be taken out: it is made, and refused by what is asked of the
//! entry that it leaves.

ghost use Rattle.std.specs.Prelude.{◌≡◌, Ok, IfOk, IfErr, OnOk, []};
ghost use Rattle.std.specs.List.{IsDistinct};
ghost use Rattle.ldap_msg.specs.plain_values.Answers.{IsFaultOf};
ghost use Rattle.dir_tree.specs.Entry.{values_of, is_match};
ghost use Rattle.entry_changes.specs.declared.kind.ChangeKind.TheVariants as change_kind;
ghost use Rattle.entry_changes.specs.Change.{changed, cause_of};
ghost use Rattle.entry_changes.specs.Steps.{there_among};

use crate::ask::{AskerAfter, EntryAsker};
use crate::effects::{add_values, copies, replace_values};
use crate::fault::{ChangeFault, NoMemory};
use crate::refusing::{add_refusal, are_none, delete_kind_refusal, replace_refusal};
use dir_tree::Entry;
use dir_tree::dn_names::Value;
use dir_tree::schema_tables::AttrId;
use std::alloc::Global;

// Whether the entry has each of the values.
fn there_among(
    alloc: Global,
    entry: &Entry,
    kind: AttrId,
    values: &[Value],
) -> Result<Vec<bool>, NoMemory>
    ensures ok { IfOk result (λ there.
        there.items ≡ there_among (values_of kind.0 entry.now.attributes) values.now) }
{
    let mut there = Vec::with_capacity(alloc, values.len())?;
    for value in values {
        there.push(entry.has_value(kind, value.key()))?;
    }
    Ok(there)
}

/// Adds the values to the entry, unless that is refused.
pub(crate) fn add<A: EntryAsker>(
    alloc: Global,
    asker: &A,
    entry: &mut Entry,
    kind: AttrId,
    values: &[Value],
) -> Result<(), ChangeFault>
    ensures ok { OnOk result (changed (A.asker asker.now) entry.old
        (record { change = change_kind.Add; kind = kind.0; values = values.now }) ≡ Ok entry.new) }
    ensures refused { IfErr result (λ fault. IsFaultOf (cause_of fault) (changed (A.asker asker.now) entry.old
        (record { change = change_kind.Add; kind = kind.0; values = values.now }))) }
{
    let absent = are_none(entry.values(kind));
    let there = there_among(alloc, entry, kind, values)?;
    add_values(alloc, entry, kind, values)?;
    let after = AskerAfter {
        asker,
        after: entry,
    };
    match add_refusal(&after, kind, absent, &there, values) {
        Some(code) => Err(ChangeFault::Refused(code)),
        None => Ok(()),
    }
}

/// Takes the attribute out of the entry, unless that is refused.
pub(crate) fn delete_kind<A: EntryAsker>(
    asker: &A,
    entry: &mut Entry,
    kind: AttrId,
) -> Result<(), ChangeFault>
    ensures ok { OnOk result (changed (A.asker asker.now) entry.old
        (record { change = change_kind.Delete; kind = kind.0; values = [] }) ≡ Ok entry.new) }
    ensures refused { IfErr result (λ fault. IsFaultOf (cause_of fault) (changed (A.asker asker.now) entry.old
        (record { change = change_kind.Delete; kind = kind.0; values = [] }))) }
{
    let before = AskerAfter {
        asker,
        after: entry,
    };
    if let Some(code) = delete_kind_refusal(&before, kind, entry.values(kind)) {
        return Err(ChangeFault::Refused(code));
    }
    let _found = entry.drop_kind(kind);
    Ok(())
}

/// Gives the attribute the values in place of its own, unless that is refused.
pub(crate) fn replace<A: EntryAsker>(
    alloc: Global,
    asker: &A,
    entry: &mut Entry,
    kind: AttrId,
    values: &[Value],
) -> Result<(), ChangeFault>
    requires distinct { IsDistinct is_match values.now }
    ensures ok { OnOk result (changed (A.asker asker.now) entry.old
        (record { change = change_kind.Replace; kind = kind.0; values = values.now }) ≡ Ok entry.new) }
    ensures refused { IfErr result (λ fault. IsFaultOf (cause_of fault) (changed (A.asker asker.now) entry.old
        (record { change = change_kind.Replace; kind = kind.0; values = values.now }))) }
{
    let old = copies(alloc, entry.values(kind))?;
    replace_values(entry, kind, copies(alloc, values)?)?;
    let after = AskerAfter {
        asker,
        after: entry,
    };
    match replace_refusal(&after, kind, &old, values) {
        Some(code) => Err(ChangeFault::Refused(code)),
        None => Ok(()),
    }
}
