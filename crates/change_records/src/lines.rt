//! What single lines of a record say.

ghost use Rattle.std.specs.Prelude.{◌≡◌, None};
ghost use Rattle.dir_tree.specs.plain_values.Answers.{Answers};
ghost use Rattle.ldif_records.specs.reading.Faults.{fault_of};
ghost use Rattle.change_records.specs.Reading.{value_line, is_hyphen, nothing_in};

use ldap_msg::plain_values::Octets;
use ldif_records::{BadLine, LineCause, Unfolded, field, value};
use std::alloc::Global;

/// The fault of the line of this number: it is of no form that may stand there, or the record lacks a line.
pub(crate) fn misplaced(line: u64) -> BadLine
    ensures { result ≡ BadLine.Bad line LineCause.Syntax }
{
    BadLine::Bad {
        line,
        cause: LineCause::Syntax,
    }
}

/// The value that a line of the type says.
pub(crate) fn value_line(alloc: Global, kind: &[u8], line: &Unfolded<'_>) -> Result<Octets, BadLine>
    ensures { Answers (λ value. value) fault_of result (value_line kind.now line.now) }
{
    let number = line.number();
    let Some(field) = field(line.octets()) else {
        return Err(misplaced(number));
    };
    if field.kind != kind {
        return Err(misplaced(number));
    }
    match value(alloc, field)? {
        Some(value) => Ok(value),
        None => Err(BadLine::Bad {
            line: number,
            cause: LineCause::Base64,
        }),
    }
}

/// Whether the line is a hyphen.
pub(crate) fn is_hyphen(line: &Unfolded<'_>) -> bool
    ensures { result ≡ is_hyphen line.now }
{
    line.octets() == b"-".as_slice()
}

/// No value, where no line is left.
pub(crate) fn nothing_in(lines: &[Unfolded<'_>]) -> Result<Option<Octets>, BadLine>
    ensures { Answers (λ nothing. nothing) fault_of result (nothing_in lines.now) }
{
    match lines.split_first() {
        Some((line, _)) => Err(misplaced(line.number())),
        None => Ok(None),
    }
}
