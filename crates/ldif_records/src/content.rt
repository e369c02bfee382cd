//! The lines that are no comments.

ghost use Rattle.std.specs.Prelude.{◌≡◌, ◌<◌, [], false, IfOk, IfSome, IfNone};
ghost use Rattle.ldif_records.specs.reading.Records.{records};
ghost use Rattle.ldif_records.specs.lines.Places.{IsPlace, IsLinesAfter, content_from, body_from, records_from};
ghost use Rattle.ldif_records.specs.reading.Steps.{IsRead, ahead, is_blank_ahead, ends_ahead, is_version_ahead};

use crate::lines::begins_with;
use crate::types::{NoMemory, Position};
use crate::unfolded::{Unfolded, first_unfolded};
use std::alloc::Global;

/// The next line, from a place on, that is no comment, if there is one, and the place after it. The error comes where
/// memory is refused.
pub fn next_content(
    alloc: Global,
    text: &[u8],
    from: Position,
) -> Result<(Option<Unfolded<'_>>, Position), NoMemory>
    requires { IsPlace text.now from }
    ensures { IfOk result
        (λ read. IsRead (content_from text.now from) text.now from read.0 read.1) }
{
    let mut at = from;
    while at.offset < text.len() {
        let (line, after) = first_unfolded(alloc, text, at)?;
        if !begins_with(line.octets(), b'#') {
            return Ok((Some(line), after));
        }
        at = after;
    }
    Ok((None, at))
}

// Whether the line gives the version.
#[tactic(auto, unfolding(crate::specs::reading::Records::is_version))]
fn is_version(line: &Option<Unfolded<'_>>) -> bool
    ensures { result ≡ is_version_ahead line.now }
{
    match line {
        Some(line) => line.octets() == b"version: 1".as_slice(),
        None => false,
    }
}

// Whether the line is empty.
fn is_blank(line: &Option<Unfolded<'_>>) -> bool
    ensures { result ≡ is_blank_ahead line.now }
{
    match line {
        Some(line) => line.octets().is_empty(),
        None => false,
    }
}

/// Whether there is no line, or an empty one.
pub(crate) fn ends(line: &Option<Unfolded<'_>>) -> bool
    ensures { result ≡ ends_ahead line.now }
{
    match line {
        Some(line) => line.octets().is_empty(),
        None => true,
    }
}

/// The same from a place on; at the start of the file, the line that gives the version is left out.
pub fn first_content(
    alloc: Global,
    text: &[u8],
    from: Position,
) -> Result<(Option<Unfolded<'_>>, Position), NoMemory>
    requires { IsPlace text.now from }
    ensures { IfOk result (λ read. IsRead (body_from text.now from) text.now from read.0 read.1) }
{
    let (line, at) = next_content(alloc, text, from)?;
    if from.offset > 0 {
        return Ok((line, at));
    }
    if !is_version(&line) {
        return Ok((line, at));
    }
    next_content(alloc, text, at)
}

/// The first line of a record from a place on, if there is one, and the place after it.
pub(crate) fn first_filled(
    alloc: Global,
    text: &[u8],
    from: Position,
) -> Result<(Option<Unfolded<'_>>, Position), NoMemory>
    requires { IsPlace text.now from }
    ensures exact { IfOk result (λ read. records_from text.now from
        ≡ records (ahead read.0 (content_from text.now read.1))) }
    ensures filled { IfOk result (λ read. is_blank_ahead read.0 ≡ false) }
    ensures end { IfOk result (λ read. IfNone read.0 (content_from text.now read.1 ≡ [])) }
    ensures later { IfOk result (λ read. IfSome read.0 (λ _. from.offset < read.1.offset)) }
    ensures place { IfOk result (λ read. IsPlace text.now read.1) }
    ensures passed { IfOk result (λ read. IsLinesAfter text.now from read.1) }
{
    let (mut line, mut at) = first_content(alloc, text, from)?;
    'blanks: while is_blank(&line) {
        (line, at) = next_content(alloc, text, at)?;
    }
    Ok((line, at))
}
