//! The attributes of an add, read.

ghost use Rattle.std.specs.Prelude.{◌≡◌, ◌++◌, IfOk, OnOk, None};
ghost use Rattle.dir_tree.specs.plain_values.Answers.{Answers};
ghost use Rattle.ldif_records.specs.reading.Faults.{fault_of};
ghost use Rattle.change_records.specs.Reading.{attribute_begun, attribute_with, whole_before, whole_last, attributes_in};

use crate::types::NoMemory;
use ldap_msg::KindValues;
use ldap_msg::plain_values::{Octets, OneOrMany};
use ldif_records::{BadLine, RecordLine, Unfolded, attribute_line};
use std::alloc::Global;

// The attribute of a line.
fn attribute_begun(alloc: Global, line: RecordLine) -> Result<KindValues, NoMemory>
    ensures { IfOk result (λ given. given ≡ attribute_begun line) }
{
    let kind = Octets::from_vec(line.kind.as_slice().to_vec(alloc)?);
    Ok(KindValues {
        kind,
        values: OneOrMany::one(line.value),
    })
}

// The attribute that goes on behind a line, and those that are whole, with the one that is so as the line comes.
fn attribute_with(
    alloc: Global,
    whole: &mut Vec<KindValues>,
    before: Option<KindValues>,
    line: RecordLine,
) -> Result<KindValues, NoMemory>
    ensures next { IfOk result (λ next. next ≡ attribute_with before line) }
    ensures whole { OnOk result (whole.new.items ≡ whole.old.items ++ whole_before before line) }
{
    let Some(given) = before else {
        return attribute_begun(alloc, line);
    };
    if line.kind.as_slice() == given.kind.as_slice() {
        let mut given = given;
        given.values.push(alloc, line.value)?;
        return Ok(given);
    }
    whole.push(given)?;
    attribute_begun(alloc, line)
}

// Puts the attribute that goes on to the end last.
fn put_last(whole: &mut Vec<KindValues>, before: Option<KindValues>) -> Result<(), NoMemory>
    ensures { OnOk result (whole.new.items ≡ whole.old.items ++ whole_last before) }
{
    match before {
        Some(last) => Ok(whole.push(last)?),
        None => Ok(()),
    }
}

/// The attributes of an add that lines say: neighbours of one type are one attribute.
pub(crate) fn attributes_in(
    alloc: Global,
    lines: &[Unfolded<'_>],
) -> Result<OneOrMany<KindValues>, BadLine>
    ensures { Answers (λ attributes. attributes) fault_of result (attributes_in None lines.now) }
{
    let mut whole = Vec::new(alloc);
    let mut before = None;
    for line in lines {
        match attribute_line(alloc, line) {
            Ok(read) => before = Some(attribute_with(alloc, &mut whole, before, read)?),
            Err(bad) => return Err(bad),
        }
    }
    put_last(&mut whole, before)?;
    Ok(OneOrMany::from_vec(whole))
}
