//! Which line of a record is at fault.

ghost use Rattle.std.specs.Prelude.{◌≡◌, ◌∷◌, IfOk, option_map};
ghost use Rattle.client_core.specs.Values.{is_scope, is_truth, accepts};
ghost use Rattle.client_core.specs.Faults.{taken_at, taken_by, checked, behind, first_bad, has_kind, lacks_needed, bad_line};
ghost use Rattle.client_core.specs.Steps.{taken_in, slots_in};

use crate::filters::is_filter;
use crate::limits::limit_in;
use crate::rows::{Cell, Slot, is_value, row_of};
use crate::types::NoMemory;
use crate::words::Word;
use ldif_records::{Record, RecordLine, is_kind};
use std::alloc::Global;

/// The cell that takes a line, and the places where those behind it may stand.
#[derive(Clone, Copy)]
pub(crate) struct Taken<'a> {
    cell: Cell,
    rest: &'a [Slot],
}

// Whether the text is a scope.
fn is_scope(text: &[u8]) -> bool
    ensures exact { result ≡ is_scope text.now }
{
    text == b"base".as_slice() || text == b"one".as_slice() || text == b"sub".as_slice()
}

// Whether the text is a truth value.
fn is_truth(text: &[u8]) -> bool
    ensures exact { result ≡ is_truth text.now }
{
    text == b"TRUE".as_slice() || text == b"FALSE".as_slice()
}

// Whether the line, which may stand in the cell, has a value that it may have.
fn accepts(alloc: Global, cell: Cell, line: &RecordLine) -> Result<bool, NoMemory>
    ensures ok { IfOk result (λ is. is ≡ accepts cell line.now.kind line.now.value) }
{
    let value = line.value.as_slice();
    match cell {
        Cell::Scope => Ok(is_scope(value)),
        Cell::Limit => Ok(limit_in(value).is_some()),
        Cell::Only => Ok(value == b"types".as_slice()),
        Cell::Subentries => Ok(is_truth(value)),
        Cell::Filter => is_filter(alloc, value),
        Cell::Change => Ok(is_kind(value)),
        Cell::ChangeOrValue => Ok(is_value(line.kind.as_slice()) || is_kind(value)),
        Cell::Keep => Ok(value == b"TRUE".as_slice()),
        Cell::Password | Cell::Select | Cell::Attribute | Cell::NewRdn | Cell::NewSuperior => Ok(
            true,
        ),
    }
}

// The cell of a place that takes a line, and the places from this one on, or behind it.
fn taken_at<'a>(slot: Slot, left: &'a [Slot], behind: &'a [Slot]) -> Taken<'a>
    requires { left.now ≡ slot ∷ behind.now }
    ensures exact { taken_in result ≡ taken_at slot behind.now }
{
    Taken {
        cell: slot.cell,
        rest: if slot.count.is_repeated() {
            left
        } else {
            behind
        },
    }
}

// The first place that takes a line of the type.
#[tactic(auto, unfolding(crate::specs::Faults::taken_by))]
fn taken_by<'a>(slots: &'a [Slot], kind: &[u8]) -> Option<Taken<'a>>
    ensures exact { option_map taken_in result ≡ taken_by slots.now kind.now }
{
    let mut left = slots;
    while let [slot, behind @ ..] = left {
        if slot.cell.is_of(kind) {
            return Some(taken_at(*slot, left, behind));
        }
        if slot.count.is_needed() {
            return None;
        }
        left = behind;
    }
    None
}

// The places for the lines behind this one, where it has a value that it may have.
fn checked<'a>(
    alloc: Global,
    line: &RecordLine,
    taken: Taken<'a>,
) -> Result<Option<&'a [Slot]>, NoMemory>
    ensures ok { IfOk result (λ rest. slots_in rest ≡ checked line.now (taken_in taken.entry)) }
{
    if accepts(alloc, taken.cell, line)? {
        Ok(Some(taken.rest))
    } else {
        Ok(None)
    }
}

// The same, where the line may stand at these places.
fn behind<'a>(
    alloc: Global,
    slots: &'a [Slot],
    line: &RecordLine,
) -> Result<Option<&'a [Slot]>, NoMemory>
    ensures ok { IfOk result (λ rest. slots_in rest ≡ behind slots.now line.now) }
{
    match taken_by(slots, line.kind.as_slice()) {
        Some(taken) => checked(alloc, line, taken),
        None => Ok(None),
    }
}

// The number of the first line that is at fault, of those that stand at these places.
#[tactic(auto, unfolding(crate::specs::Faults::first_bad))]
fn first_bad(alloc: Global, row: &[Slot], lines: &[RecordLine]) -> Result<Option<u64>, NoMemory>
    ensures ok { IfOk result (λ bad. bad ≡ first_bad row.now lines.now) }
{
    let mut slots = row;
    for line in lines {
        match behind(alloc, slots, line)? {
            Some(rest) => slots = rest,
            None => return Ok(Some(line.line)),
        }
    }
    Ok(None)
}

// Whether one of the lines is of the type.
fn has_kind(kind: &[u8], lines: &[RecordLine]) -> bool
    ensures exact { result ≡ has_kind kind.now lines.now }
{
    lines.iter().any(|line| line.kind.as_slice() == kind)
}

// Whether a line that the operation needs is missing.
fn lacks_needed(word: Word, lines: &[RecordLine]) -> bool
    ensures exact { result ≡ lacks_needed word lines.now }
{
    match word {
        Word::Compare | Word::Add | Word::Modify => lines.is_empty(),
        Word::Rename => !has_kind(b"newrdn", lines),
        Word::Bind | Word::Search | Word::Delete | Word::WhoAmI | Word::Unbind => false,
    }
}

/// The number of the first line that is at fault, of a record with the operation, the number of its line `do`, and the
/// lines behind it.
#[tactic(auto, unfolding(crate::specs::Faults::bad_line))]
pub(crate) fn bad_line(
    alloc: Global,
    word: Word,
    given: &Record,
    number: u64,
    lines: &[RecordLine],
) -> Result<Option<u64>, NoMemory>
    ensures ok { IfOk result (λ bad. bad ≡ bad_line word given.now number lines.now) }
{
    if word.has_no_name() && !given.name.is_empty() {
        return Ok(Some(given.line));
    }
    if lacks_needed(word, lines) {
        return Ok(Some(number));
    }
    first_bad(alloc, row_of(word), lines)
}
