//! What one line says: a type and a value.

ghost use Rattle.std.specs.Prelude.{◌≡◌, IfOk};
ghost use Rattle.std.specs.Option.{option_map};
ghost use Rattle.dir_tree.specs.plain_values.Answers.{Answers};
ghost use Rattle.ldif_records.specs.Fields.{after_spaces, field_after, field_of, decoded, value_of, attribute_line, name_line};
ghost use Rattle.ldif_records.specs.reading.Faults.{fault_of};
ghost use Rattle.ldif_records.specs.reading.Steps.{field_in};

use crate::kind_text::KindText;
use crate::kinds::{is_changetype, is_dn, is_kind};
use crate::lines::begins_with;
use crate::types::{BadLine, LineCause, NoMemory, RecordLine};
use crate::unfolded::Unfolded;
use base64::DecodeAllocError;
use base64::engine::general_purpose::STANDARD;
use dir_tree::plain_values::{Octets, position_of};
use std::alloc::{AllocError, Global};

/// A type, and the text of its value, as it stands or in base64.
#[derive(Clone, Copy)]
pub struct Parts<'a> {
    pub kind: &'a [u8],
    pub coded: bool,
    pub text: &'a [u8],
}

// The octets after the spaces at the front.
#[tactic(auto, unfolding(crate::specs::Fields::after_spaces))]
fn after_spaces(text: &[u8]) -> &[u8]
    ensures { result.now ≡ after_spaces text.now }
{
    for (place, octet) in text.iter().enumerate() {
        if *octet != b' ' {
            return text.split_at(place).1;
        }
    }
    text.split_at(text.len()).1
}

// The field of a type and of what stands after the colon.
fn field_after<'a>(kind: &'a [u8], after: &'a [u8]) -> Option<Parts<'a>>
    ensures { option_map field_in result ≡ field_after kind.now after.now }
{
    if begins_with(after, b'<') {
        return None;
    }
    if begins_with(after, b':') {
        let text = after_spaces(after.split_at(1).1);
        return Some(Parts {
            kind,
            coded: true,
            text,
        });
    }
    Some(Parts {
        kind,
        coded: false,
        text: after_spaces(after),
    })
}

/// The field of a line that has the form of one: a type, a colon, and a value that isn't elsewhere.
pub fn field(line: &[u8]) -> Option<Parts<'_>>
    ensures { option_map field_in result ≡ field_of line.now }
{
    let colon = position_of(line, b':');
    if colon == line.len() {
        return None;
    }
    let kind = line.split_at(colon).0;
    if !is_kind(kind) {
        return None;
    }
    field_after(kind, line.split_at(colon + 1).1)
}

// The octets that a text of padded base64 stands for.
#[tactic(auto, unfolding(crate::specs::Fields::decoded))]
fn decoded(alloc: Global, text: &[u8]) -> Result<Option<Octets>, NoMemory>
    ensures { IfOk result (λ octets. octets ≡ decoded text.now) }
{
    match STANDARD.decode(alloc, text) {
        Ok(octets) => Ok(Some(Octets::from_vec(octets))),
        Err(DecodeAllocError::OutOfMemory) => Err(AllocError),
        Err(DecodeAllocError::DecodeError(_)) => Ok(None),
    }
}

/// The octets of the value; none where they should be padded base64 (RFC 4648 section 4) with no bits left over, and
/// aren't. The error comes where memory is refused.
pub fn value(alloc: Global, field: Parts<'_>) -> Result<Option<Octets>, NoMemory>
    ensures { IfOk result (λ value. value ≡ value_of (field_in field.entry)) }
{
    if field.coded {
        return decoded(alloc, field.text);
    }
    Ok(Some(Octets::from_vec(field.text.to_vec(alloc)?)))
}

/// What an attribute line says, or why it is bad.
pub fn attribute_line(alloc: Global, line: &Unfolded<'_>) -> Result<RecordLine, BadLine>
    ensures { Answers (λ read. read) fault_of result (attribute_line line.now) }
{
    let number = line.number();
    let Some(field) = field(line.octets()) else {
        return Err(BadLine::Bad {
            line: number,
            cause: LineCause::Syntax,
        });
    };
    if is_changetype(field.kind) {
        return Err(BadLine::Bad {
            line: number,
            cause: LineCause::Changetype,
        });
    }
    let Some(value) = value(alloc, field)? else {
        return Err(BadLine::Bad {
            line: number,
            cause: LineCause::Base64,
        });
    };
    let kind = KindText::from_slice(alloc, field.kind)?;
    let read = RecordLine {
        line: number,
        kind,
        value,
    };
    Ok(read)
}

/// The name that the first line of a record says, or why the line is bad; `alone` says that the record has no other
/// line.
pub fn name_line(alloc: Global, alone: bool, line: &Unfolded<'_>) -> Result<Octets, BadLine>
    ensures { Answers (λ name. name) fault_of result (name_line alone line.now) }
{
    let number = line.number();
    let Some(field) = field(line.octets()) else {
        return Err(BadLine::Bad {
            line: number,
            cause: LineCause::Syntax,
        });
    };
    if !is_dn(field.kind) || alone {
        return Err(BadLine::Bad {
            line: number,
            cause: LineCause::Syntax,
        });
    }
    match value(alloc, field)? {
        Some(name) => Ok(name),
        None => Err(BadLine::Bad {
            line: number,
            cause: LineCause::Base64,
        }),
    }
}
