//! The changes of a modify request, read.

ghost use Rattle.std.specs.Prelude.{◌≡◌};
ghost use Rattle.std.specs.List.{list_any};
ghost use Rattle.ldap_msg.specs.plain_values.Answers.{Answers};
ghost use Rattle.op_add_delete.specs.reading.Reading.{cause_of, attribute_of};
ghost use Rattle.op_modify.specs.ReadChanges.{is_no_change, change_of, change_with, read_change, read_each, read_changes};

use entry_changes::{ChangeKind, EntryChange};
use ldap_msg::{Change, ModifyOperation, ResultCode};
use op_add_delete::{Fault, Given, read_attribute, repeats};
use std::alloc::Global;

// Whether it is no change that may be asked for.
fn is_no_change(given: &Change) -> bool
    ensures exact { result ≡ is_no_change given.now }
{
    match given.operation {
        ModifyOperation::Add => given.body.values.is_empty(),
        ModifyOperation::Delete | ModifyOperation::Replace => false,
        ModifyOperation::Other(_) => true,
    }
}

// Whether one of them is none.
fn any_is_no_change(given: &[Change]) -> bool
    ensures exact { result ≡ list_any is_no_change given.now }
{
    given.iter().any(|change| is_no_change(change))
}

// What the operation asks for; another than the three is refused before it is read.
fn change_of(operation: ModifyOperation) -> ChangeKind
    ensures exact { result ≡ change_of operation }
{
    match operation {
        ModifyOperation::Add => ChangeKind::Add,
        ModifyOperation::Delete => ChangeKind::Delete,
        ModifyOperation::Replace | ModifyOperation::Other(_) => ChangeKind::Replace,
    }
}

// The change with the values of the attribute, of which no two may match.
fn change_with(alloc: Global, change: ChangeKind, attribute: Given) -> Result<EntryChange, Fault>
    ensures exact { Answers (λ change. change) cause_of result (change_with change (attribute_of attribute)) }
{
    match repeats(alloc, &attribute.values) {
        Ok(true) => Err(Fault::Refused(ResultCode::AttributeOrValueExists)),
        Ok(false) => Ok(EntryChange::new(change, attribute.kind, attribute.values)),
        Err(_) => Err(Fault::NoMemory),
    }
}

// The change that a request lists.
fn read_change(alloc: Global, given: &Change) -> Result<EntryChange, Fault>
    ensures exact { Answers (λ change. change) cause_of result (read_change given.now) }
{
    match read_attribute(alloc, &given.body) {
        Ok(attribute) => change_with(alloc, change_of(given.operation), attribute),
        Err(fault) => Err(fault),
    }
}

// The changes, in order.
fn read_each(alloc: Global, given: &[Change]) -> Result<Vec<EntryChange>, Fault>
    ensures exact { Answers (λ changes. changes.items) cause_of result (read_each given.now) }
{
    let mut changes = Vec::new(alloc);
    for item in given {
        match read_change(alloc, item) {
            Ok(change) => changes.push(change)?,
            Err(fault) => return Err(fault),
        }
    }
    Ok(changes)
}

/// The changes of a modify request, in their order: each is one that may be asked for, and then each is read.
#[tactic(auto, unfolding(crate::specs::ReadChanges::read_changes))]
pub fn read_changes(alloc: Global, given: &[Change]) -> Result<Vec<EntryChange>, Fault>
    ensures exact { Answers (λ changes. changes.items) cause_of result (read_changes given.now) }
{
    if any_is_no_change(given) {
        return Err(Fault::Refused(ResultCode::ProtocolError));
    }
    read_each(alloc, given)
}
