//! The changes of a modify, read.

ghost use Rattle.std.specs.Prelude.{◌≡◌, ◌++◌, IfOk, OnOk, None};
ghost use Rattle.dir_tree.specs.plain_values.Answers.{Answers};
ghost use Rattle.ldif_records.specs.reading.Faults.{fault_of};
ghost use Rattle.change_records.specs.Reading.{operation_named, change_with, change_begun, and_value, with_line, going_on, ended_by, all_ended, changes_in};

use crate::lines::{is_hyphen, misplaced, value_line};
use crate::types::NoMemory;
use ldap_msg::plain_values::{Octets, OneOrMany};
use ldap_msg::{Change, KindValues, ModifyOperation};
use ldif_records::{BadLine, Unfolded, attribute_line};
use std::alloc::Global;

// The operation that a word names.
fn operation_named(word: &[u8]) -> Option<ModifyOperation>
    ensures { result ≡ operation_named word.now }
{
    if word == b"add".as_slice() {
        Some(ModifyOperation::Add)
    } else if word == b"delete".as_slice() {
        Some(ModifyOperation::Delete)
    } else if word == b"replace".as_slice() {
        Some(ModifyOperation::Replace)
    } else {
        None
    }
}

// The change of the operation with the type, without values yet.
fn change_with(
    alloc: Global,
    number: u64,
    kind: Octets,
    operation: Option<ModifyOperation>,
) -> Result<Change, BadLine>
    ensures { Answers (λ change. change) fault_of result (change_with number kind operation) }
{
    let Some(operation) = operation else {
        return Err(misplaced(number));
    };
    let values = OneOrMany::from_vec(Vec::new(alloc));
    Ok(Change {
        operation,
        body: KindValues { kind, values },
    })
}

// The change that a line begins.
fn change_begun(alloc: Global, line: &Unfolded<'_>) -> Result<Change, BadLine>
    ensures { Answers (λ change. change) fault_of result (change_begun line.now) }
{
    match attribute_line(alloc, line) {
        Ok(read) => {
            let operation = operation_named(read.kind.as_slice());
            change_with(alloc, line.number(), read.value, operation)
        }
        Err(bad) => Err(bad),
    }
}

// The change with one value more.
fn and_value(alloc: Global, change: Change, value: Octets) -> Result<Change, NoMemory>
    ensures { IfOk result (λ more. more ≡ and_value change value) }
{
    let mut change = change;
    change.body.values.push(alloc, value)?;
    Ok(change)
}

// The change with the value of a line.
fn with_line(alloc: Global, change: Change, line: &Unfolded<'_>) -> Result<Change, BadLine>
    ensures { Answers (λ more. more) fault_of result (with_line change line.now) }
{
    match value_line(alloc, change.body.kind.as_slice(), line) {
        Ok(value) => match and_value(alloc, change, value) {
            Ok(more) => Ok(more),
            Err(_) => Err(BadLine::NoMemory),
        },
        Err(bad) => Err(bad),
    }
}

// The change that goes on behind a line, and those that are whole, with the one that the line ends.
fn going_on(
    alloc: Global,
    whole: &mut Vec<Change>,
    before: Option<Change>,
    line: &Unfolded<'_>,
) -> Result<Option<Change>, BadLine>
    ensures next { Answers (λ next. next) fault_of result (going_on before line.now) }
    ensures whole { OnOk result (whole.new.items ≡ whole.old.items ++ ended_by before line.now) }
{
    let Some(change) = before else {
        return Ok(Some(change_begun(alloc, line)?));
    };
    if is_hyphen(line) {
        whole.push(change)?;
        return Ok(None);
    }
    Ok(Some(with_line(alloc, change, line)?))
}

// The changes, where none goes on to the end.
fn all_ended(
    number: u64,
    whole: Vec<Change>,
    before: Option<Change>,
) -> Result<OneOrMany<Change>, BadLine>
    ensures { Answers (λ changes. changes) fault_of result (all_ended number whole.items before) }
{
    match before {
        Some(_) => Err(misplaced(number)),
        None => Ok(OneOrMany::from_vec(whole)),
    }
}

/// The changes of a modify that lines say. Where the last lacks its hyphen, the line of the number is bad.
pub(crate) fn changes_in(
    alloc: Global,
    number: u64,
    lines: &[Unfolded<'_>],
) -> Result<OneOrMany<Change>, BadLine>
    ensures { Answers (λ changes. changes) fault_of result (changes_in number None lines.now) }
{
    let mut whole = Vec::new(alloc);
    let mut before = None;
    for line in lines {
        match going_on(alloc, &mut whole, before, line) {
            Ok(next) => before = next,
            Err(bad) => return Err(bad),
        }
    }
    all_ended(number, whole, before)
}
