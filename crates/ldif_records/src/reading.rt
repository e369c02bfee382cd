//! Records, read one by one.

ghost use Rattle.std.specs.Prelude.{◌≡◌, ◌≤◌, [], ◌∷◌, false, Ok, IfOk, IfErr, IfSome, IfNone, List, ℕ};
ghost use Rattle.dir_tree.specs.plain_values.Answers.{IsFaultOf};
ghost use Rattle.ldif_records.specs.reading.Faults.{fault_of};
ghost use Rattle.ldif_records.specs.reading.Records.{attribute_lines, record_of, records, first_of, is_blank};
ghost use Rattle.ldif_records.specs.lines.Places.{IsPlace, IsLinesAfter, IsNext, content_from, records_from};
ghost use Rattle.ldif_records.specs.reading.Steps.{ahead, before_blank, after_blank};

use crate::content::{ends, first_filled, next_content};
use crate::fields::{attribute_line, name_line};
use crate::types::{BadLine, Position, Record, RecordLines};
use crate::unfolded::Unfolded;
use std::alloc::Global;

// The attribute lines of a record, the first of which was read, and the place after them.
fn attribute_lines<'a>(
    alloc: Global,
    text: &'a [u8],
    first: Option<Unfolded<'a>>,
    from: Position,
) -> Result<(RecordLines, Position), BadLine>
    requires place { IsPlace text.now from }
    requires end { IfNone first (content_from text.now from ≡ []) }
    ensures ok { IfOk result (λ read. attribute_lines (before_blank
        (ahead first.entry (content_from text.now from))) ≡ Ok read.0) }
    ensures rest { IfOk result (λ read. after_blank
        (ahead first.entry (content_from text.now from)) ≡ content_from text.now read.1) }
    ensures bad { IfErr result (λ bad. IsFaultOf (fault_of bad) (attribute_lines (before_blank
        (ahead first.entry (content_from text.now from))))) }
    ensures after { IfOk result (λ read. from.offset ≤ read.1.offset) }
    ensures place { IfOk result (λ read. IsPlace text.now read.1) }
    ensures passed { IfOk result (λ read. IsLinesAfter text.now from read.1) }
{
    let mut lines = Vec::new(alloc);
    let mut line = first;
    let mut at = from;
    'lines: while let Some(found) = line {
        if found.octets().is_empty() {
            break;
        }
        lines.push(attribute_line(alloc, &found)?)?;
        (line, at) = next_content(alloc, text, at)?;
    }
    Ok((RecordLines::from_vec(lines), at))
}

// The record of a first line, and the place after it.
fn record_after(
    alloc: Global,
    text: &[u8],
    first: &Unfolded<'_>,
    from: Position,
) -> Result<(Record, Position), BadLine>
    requires { IsPlace text.now from }
    ensures ok { IfOk result (λ read.
        record_of first.now (before_blank (content_from text.now from)) ≡ Ok read.0) }
    ensures rest { IfOk result (λ read.
        after_blank (content_from text.now from) ≡ content_from text.now read.1) }
    ensures bad { IfErr result (λ bad.
        IsFaultOf (fault_of bad) (record_of first.now (before_blank (content_from text.now from)))) }
    ensures after { IfOk result (λ read. from.offset ≤ read.1.offset) }
    ensures place { IfOk result (λ read. IsPlace text.now read.1) }
    ensures passed { IfOk result (λ read. IsLinesAfter text.now from read.1) }
{
    let (line, at) = next_content(alloc, text, from)?;
    let name = name_line(alloc, ends(&line), first)?;
    let (lines, at) = attribute_lines(alloc, text, line, at)?;
    let record = Record {
        line: first.number(),
        name,
        lines,
    };
    Ok((record, at))
}

/// Reads the next record of a data file (RFC 2849), and gives the place after it. A file is read from offset 0 and
/// line 1 on; the place that a call gives is where the next call begins.
///
/// None says that no further record follows, and comes in no other case. `Bad` tells the first bad line of the next
/// record, and comes exactly where it has one: in each line `Syntax`, `Changetype` and `Base64` are tried in this
/// order. `NoMemory` may come in place of any answer.
pub fn next_record(
    alloc: Global,
    text: &[u8],
    from: Position,
) -> Result<Option<(Record, Position)>, BadLine>
    requires { IsPlace text.now from }
    ensures ok { IfOk result (λ next. IfSome next (λ read. IsNext text.now from read.0 read.1)) }
    ensures empty { IfOk result (λ next. IfNone next (records_from text.now from ≡ [])) }
    ensures bad { IfErr result (λ bad.
        IsFaultOf (fault_of bad) (first_of (records_from text.now from))) }
{
    let (line, at) = first_filled(alloc, text, from)?;
    let Some(first) = line else {
        return Ok(None);
    };
    let (record, at) = record_after(alloc, text, &first, at)?;
    Ok(Some((record, at)))
}
