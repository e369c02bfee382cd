//! The attributes and the changes that lines say.

ghost use Rattle.std.specs.Prelude.{◌≡◌, ◌++◌, IfOk, OnOk};
ghost use Rattle.client_core.specs.Picks.{at_last, with_value, attribute_of, and_attribute, attributes_of, operation_named, change_of, and_change, changes_of};

use crate::picking::octets_of;
use crate::rows::is_value;
use crate::types::NoMemory;
use ldap_msg::plain_values::OneOrMany;
use ldap_msg::{Change, KindValues, ModifyOperation};
use ldif_records::RecordLine;
use std::alloc::Global;

// The attribute with one value more.
fn with_value(alloc: Global, attribute: KindValues, value: &[u8]) -> Result<KindValues, NoMemory>
    ensures ok { IfOk result (λ more. more ≡ with_value attribute value.now) }
{
    let mut attribute = attribute;
    attribute.values.push(alloc, octets_of(alloc, value)?)?;
    Ok(attribute)
}

// The attribute of a line.
fn attribute_of(alloc: Global, line: &RecordLine) -> Result<KindValues, NoMemory>
    ensures ok { IfOk result (λ attribute. attribute ≡ attribute_of line.now) }
{
    let kind = octets_of(alloc, line.kind.as_slice())?;
    let value = octets_of(alloc, line.value.as_slice())?;
    Ok(KindValues {
        kind,
        values: OneOrMany::one(value),
    })
}

// Appends an attribute and a line behind it.
fn put_attribute(
    alloc: Global,
    attributes: &mut Vec<KindValues>,
    last: KindValues,
    line: &RecordLine,
) -> Result<(), NoMemory>
    ensures ok { OnOk result (attributes.new.items ≡ attributes.old.items ++ and_attribute line.now last) }
{
    if last.kind.as_slice() == line.kind.as_slice() {
        attributes.push(with_value(alloc, last, line.value.as_slice())?)?;
        return Ok(());
    }
    attributes.push(last)?;
    attributes.push(attribute_of(alloc, line)?)?;
    Ok(())
}

// Puts a line behind the attributes.
#[tactic(auto, unfolding(crate::specs::Picks::at_last), using(crate::proofs::changes::LastLemmas::at_last_push))]
fn add_attribute(
    alloc: Global,
    attributes: &mut Vec<KindValues>,
    line: &RecordLine,
) -> Result<(), NoMemory>
    ensures ok { OnOk result (attributes.new.items
        ≡ at_last (attribute_of line.now) (and_attribute line.now) attributes.old.items) }
{
    match attributes.pop() {
        Some(last) => put_attribute(alloc, attributes, last, line),
        None => {
            attributes.push(attribute_of(alloc, line)?)?;
            Ok(())
        }
    }
}

/// The attributes of lines: neighbours of one type are one attribute.
#[tactic(auto, unfolding(crate::specs::Picks::attributes_of))]
pub(crate) fn attributes_of(
    alloc: Global,
    lines: &[RecordLine],
) -> Result<OneOrMany<KindValues>, NoMemory>
    ensures ok { IfOk result (λ attributes. attributes ≡ attributes_of lines.now) }
{
    let mut attributes = Vec::new(alloc);
    for line in lines {
        add_attribute(alloc, &mut attributes, line)?;
    }
    Ok(OneOrMany::from_vec(attributes))
}

// The operation of a change.
fn operation_named(kind: &[u8]) -> ModifyOperation
    ensures exact { result ≡ operation_named kind.now }
{
    if kind == b"delete".as_slice() {
        ModifyOperation::Delete
    } else if kind == b"replace".as_slice() {
        ModifyOperation::Replace
    } else {
        ModifyOperation::Add
    }
}

// The change of a line.
fn change_of(alloc: Global, line: &RecordLine) -> Result<Change, NoMemory>
    ensures ok { IfOk result (λ change. change ≡ change_of line.now) }
{
    let kind = octets_of(alloc, line.value.as_slice())?;
    Ok(Change {
        operation: operation_named(line.kind.as_slice()),
        body: KindValues {
            kind,
            values: OneOrMany::from_vec(Vec::new(alloc)),
        },
    })
}

// Appends a change and a line behind it.
fn put_change(
    alloc: Global,
    changes: &mut Vec<Change>,
    last: Change,
    line: &RecordLine,
) -> Result<(), NoMemory>
    ensures ok { OnOk result (changes.new.items ≡ changes.old.items ++ and_change line.now last) }
{
    if is_value(line.kind.as_slice()) {
        let Change { operation, body } = last;
        let body = with_value(alloc, body, line.value.as_slice())?;
        changes.push(Change { operation, body })?;
        return Ok(());
    }
    changes.push(last)?;
    changes.push(change_of(alloc, line)?)?;
    Ok(())
}

// Puts a line behind the changes.
#[tactic(auto, unfolding(crate::specs::Picks::at_last), using(crate::proofs::changes::LastLemmas::at_last_push))]
fn add_change(alloc: Global, changes: &mut Vec<Change>, line: &RecordLine) -> Result<(), NoMemory>
    ensures ok { OnOk result (changes.new.items
        ≡ at_last (change_of line.now) (and_change line.now) changes.old.items) }
{
    match changes.pop() {
        Some(last) => put_change(alloc, changes, last, line),
        None => {
            changes.push(change_of(alloc, line)?)?;
            Ok(())
        }
    }
}

/// The changes of lines.
#[tactic(auto, unfolding(crate::specs::Picks::changes_of))]
pub(crate) fn changes_of(alloc: Global, lines: &[RecordLine]) -> Result<OneOrMany<Change>, NoMemory>
    ensures ok { IfOk result (λ changes. changes ≡ changes_of lines.now) }
{
    let mut changes = Vec::new(alloc);
    for line in lines {
        add_change(alloc, &mut changes, line)?;
    }
    Ok(OneOrMany::from_vec(changes))
}
