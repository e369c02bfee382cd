//! The lines of a file as they stand.

ghost use Rattle.std.specs.Prelude.{◌≡◌, ◌<◌, ◌∷◌, length, true};
ghost use Rattle.ldif_records.specs.lines.Lines.{begins_with};
ghost use Rattle.ldif_records.specs.lines.Places.{IsPlace, IsLinesAfter, physical_from};
ghost use Rattle.ldif_records.specs.reading.Steps.{goes_on};

use crate::types::Position;

// Whether the first octet is this one.
pub(crate) fn begins_with(octets: &[u8], wanted: u8) -> bool
    ensures { result ≡ begins_with wanted octets.now }
{
    match octets {
        [] => false,
        [first, ..] => *first == wanted,
    }
}

// The first line from a place on that is not the end, and the place after it.
pub(crate) fn first_line(text: &[u8], at: Position) -> (&[u8], Position)
    requires place { IsPlace text.now at }
    requires filled { at.offset < length text.now }
    ensures exact { physical_from text.now at
        ≡ record { number = at.line; octets = result.0.now } ∷ physical_from text.now result.1 }
    ensures later { at.offset < result.1.offset }
    ensures place { IsPlace text.now result.1 }
    ensures passed { IsLinesAfter text.now at result.1 }
{
    let (line, taken) = dir_tree::plain_values::first_line(text.split_at(at.offset).1);
    let after = Position {
        offset: at.offset + taken,
        line: at.line + 1,
    };
    (line, after)
}

// Whether the line from a place on continues the one before.
pub(crate) fn goes_on(text: &[u8], at: Position) -> bool
    requires place { IsPlace text.now at }
    ensures exact { result ≡ goes_on (physical_from text.now at) }
    ensures within { result ≡ true → at.offset < length text.now }
{
    begins_with(text.split_at(at.offset).1, b' ')
}
