//! The new name of a modify DN, read.

ghost use Rattle.std.specs.Prelude.{◌≡◌};
ghost use Rattle.dir_tree.specs.plain_values.Answers.{Answers};
ghost use Rattle.ldif_records.specs.reading.Faults.{fault_of};
ghost use Rattle.change_records.specs.Reading.{flag_of, flag_line, superior_in, rename_by, rename_in};

use crate::lines::{misplaced, nothing_in, value_line};
use ldap_msg::RenameRequest;
use ldap_msg::plain_values::Octets;
use ldif_records::{BadLine, Unfolded};
use std::alloc::Global;

// Whether the values of the old RDN go.
fn flag_of(number: u64, word: &[u8]) -> Result<bool, BadLine>
    ensures { Answers (λ flag. flag) fault_of result (flag_of number word.now) }
{
    if word == b"1".as_slice() {
        return Ok(true);
    }
    if word == b"0".as_slice() {
        return Ok(false);
    }
    Err(misplaced(number))
}

// The same, of a line.
fn flag_line(alloc: Global, line: &Unfolded<'_>) -> Result<bool, BadLine>
    ensures { Answers (λ flag. flag) fault_of result (flag_line line.now) }
{
    match value_line(alloc, b"deleteoldrdn", line) {
        Ok(word) => flag_of(line.number(), word.as_slice()),
        Err(bad) => Err(bad),
    }
}

// The new superior, if there is one.
fn superior_in(alloc: Global, lines: &[Unfolded<'_>]) -> Result<Option<Octets>, BadLine>
    ensures { Answers (λ superior. superior) fault_of result (superior_in lines.now) }
{
    let Some((line, rest)) = lines.split_first() else {
        return Ok(None);
    };
    match value_line(alloc, b"newsuperior", line) {
        Ok(superior) => match nothing_in(rest) {
            Ok(_) => Ok(Some(superior)),
            Err(bad) => Err(bad),
        },
        Err(bad) => Err(bad),
    }
}

// The new name that three parts say: two lines, and those behind them.
fn rename_by(
    alloc: Global,
    name: Octets,
    first: &Unfolded<'_>,
    second: &Unfolded<'_>,
    rest: &[Unfolded<'_>],
) -> Result<RenameRequest, BadLine>
    ensures { Answers (λ rename. rename) fault_of result (rename_by name first.now second.now rest.now) }
{
    let new_rdn = match value_line(alloc, b"newrdn", first) {
        Ok(new_rdn) => new_rdn,
        Err(bad) => return Err(bad),
    };
    let delete_old = match flag_line(alloc, second) {
        Ok(delete_old) => delete_old,
        Err(bad) => return Err(bad),
    };
    match superior_in(alloc, rest) {
        Ok(superior) => Ok(RenameRequest {
            name,
            new_rdn,
            delete_old,
            superior,
        }),
        Err(bad) => Err(bad),
    }
}

/// The new name that lines say. Where one is missing, the line of the number is bad.
pub(crate) fn rename_in(
    alloc: Global,
    name: Octets,
    number: u64,
    lines: &[Unfolded<'_>],
) -> Result<RenameRequest, BadLine>
    ensures { Answers (λ rename. rename) fault_of result (rename_in name number lines.now) }
{
    let Some((first, behind)) = lines.split_first() else {
        return Err(misplaced(number));
    };
    let Some((second, rest)) = behind.split_first() else {
        return Err(misplaced(number));
    };
    rename_by(alloc, name, first, second, rest)
}
