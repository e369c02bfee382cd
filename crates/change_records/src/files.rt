//! Files of changes, read.

ghost use Rattle.std.specs.Prelude.{◌≡◌, ◌≤◌, ◌++◌, [], OnOk, length};
ghost use Rattle.std.specs.List.{position_or_len};
ghost use Rattle.dir_tree.specs.plain_values.Answers.{Answers};
ghost use Rattle.ldif_records.specs.reading.Faults.{fault_of};
ghost use Rattle.ldif_records.specs.reading.Records.{is_blank};
ghost use Rattle.change_records.specs.Reading.{record_in, and_others, changes_from};
ghost use Rattle.change_records.specs.Files.{said_by, file_of};

use crate::content::content_from;
use crate::heads::{HEAD_LENGTH, digest_of};
use crate::lines::misplaced;
use crate::records::change_in;
use crate::types::{ChangeFile, NoMemory, RecordedChange};
use ldif_records::{BadLine, Position, Unfolded};
use std::alloc::Global;

// How many lines stand before the first empty one.
fn filled_lines(lines: &[Unfolded<'_>]) -> usize
    ensures exact { result ≡ position_or_len is_blank lines.now }
    ensures within { result ≤ length lines.now }
{
    for (place, line) in lines.iter().enumerate() {
        if line.octets().is_empty() {
            return place;
        }
    }
    lines.len()
}

// The change of the lines between two empty ones, if there are lines.
fn record_in(alloc: Global, lines: &[Unfolded<'_>]) -> Result<Option<RecordedChange>, BadLine>
    ensures { Answers (λ found. found) fault_of result (record_in lines.now) }
{
    let Some((first, rest)) = lines.split_first() else {
        return Ok(None);
    };
    match change_in(alloc, first, rest) {
        Ok(change) => Ok(Some(RecordedChange {
            line: first.number(),
            change,
        })),
        Err(bad) => Err(bad),
    }
}

// Puts the change last, if there is one.
fn put_found(
    changes: &mut Vec<RecordedChange>,
    found: Option<RecordedChange>,
) -> Result<(), NoMemory>
    ensures { OnOk result (changes.new.items ≡ changes.old.items ++ and_others found []) }
{
    match found {
        Some(change) => Ok(changes.push(change)?),
        None => Ok(()),
    }
}

// The changes of lines.
fn changes_from(alloc: Global, lines: &[Unfolded<'_>]) -> Result<Vec<RecordedChange>, BadLine>
    ensures { Answers (λ changes. changes.items) fault_of result (changes_from lines.now) }
{
    let mut changes = Vec::new(alloc);
    let mut at = 0;
    'records: while at < lines.len() {
        let left = lines.split_at(at).1;
        let count = filled_lines(left);
        match record_in(alloc, left.split_at(count).0) {
            Ok(found) => put_found(&mut changes, found)?,
            Err(bad) => return Err(bad),
        }
        at += count + 1;
    }
    Ok(changes)
}

/// Reads a file of changes: its head, as `put_head` writes it, and then records of changes, as `put_record` writes them,
/// each with an empty line behind it. Lines may be folded, and comments may stand between them (RFC 2849). The text is a
/// whole one: `whole_length` of `whole_blocks` says where a torn end begins.
///
/// `Bad` tells the first bad line, and comes exactly where the text is no file of changes: line 1 where the head doesn't
/// stand in front, `Changetype` where that is the type of an attribute, `Base64` where a value isn't padded base64, and
/// `Syntax` where a line is of no form that may stand there; a record that lacks a line is bad at its line `changetype`, or
/// at its first line where it lacks that one. `NoMemory` may come in place of any answer.
#[tactic(auto, unfolding(crate::specs::Files::file_of))]
pub fn read_file(alloc: Global, text: &[u8]) -> Result<ChangeFile, BadLine>
    ensures exact { Answers said_by fault_of result (file_of text.now) }
{
    let Some(digest) = digest_of(alloc, text)? else {
        return Err(misplaced(1));
    };
    let start = Position {
        offset: HEAD_LENGTH,
        line: 4,
    };
    let lines = content_from(alloc, text, start)?;
    match changes_from(alloc, &lines) {
        Ok(changes) => Ok(ChangeFile { digest, changes }),
        Err(bad) => Err(bad),
    }
}
