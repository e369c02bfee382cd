//! Lines with their continuations.

ghost use Rattle.std.specs.Prelude.{◌≡◌, ◌<◌, ◌≤◌, ◌++◌, ◌∷◌, length, IfOk};
ghost use Rattle.ldif_records.specs.lines.Lines.{continued, beginning};
ghost use Rattle.ldif_records.specs.lines.Places.{IsPlace, IsLinesAfter, physical_from, logical_from};

use crate::lines::{first_line, goes_on};
use crate::types::{NoMemory, Position};
use dir_tree::plain_values::Octets;
use std::alloc::Global;
use std::marker::Model;

/// A line with its continuations (RFC 2849, notes 2 and 3). Contracts see its number, from 1, and its octets without the
/// end.
#[derive(Drop)]
pub struct Unfolded<'a> {
    number: u64,
    first: &'a [u8],
    // the octets with those of the continuations, where there are some
    joined: Option<Octets>,
}

impl<'a> Model for Unfolded<'a> {
    ghost use Rattle.std.specs.Prelude.{unwrap_or};
    ghost use Rattle.ldif_records.specs.lines.Lines.{Line};

    ghost Value = { Line };

    ghost view = { λ line. record { number = line.number; octets = unwrap_or line.joined line.first.now } };
}

impl Unfolded<'_> {
    /// The number of its first line.
    pub fn number(&self) -> u64
        ensures { result ≡ self.now.number }
    {
        self.number
    }

    /// The octets.
    pub fn octets(&self) -> &[u8]
        ensures { result.now ≡ self.now.octets }
    {
        match &self.joined {
            Some(joined) => joined.as_slice(),
            None => self.first,
        }
    }
}

// The octets of a line with those of the continuations from a place on, and the place after them.
fn join(
    alloc: Global,
    text: &[u8],
    first: &[u8],
    from: Position,
) -> Result<(Octets, Position), NoMemory>
    requires { IsPlace text.now from }
    ensures octets { IfOk result (λ found.
        found.0 ≡ first.now ++ continued (physical_from text.now from)) }
    ensures rest { IfOk result (λ found.
        beginning (physical_from text.now from) ≡ logical_from text.now found.1) }
    ensures later { IfOk result (λ found. from.offset ≤ found.1.offset) }
    ensures place { IfOk result (λ found. IsPlace text.now found.1) }
    ensures passed { IfOk result (λ found. IsLinesAfter text.now from found.1) }
{
    let mut joined = first.to_vec(alloc)?;
    let mut at = from;
    while goes_on(text, at) {
        let (line, after) = first_line(text, at);
        joined.extend_from_slice(line.split_at(1).1)?;
        at = after;
    }
    Ok((Octets::from_vec(joined), at))
}

/// The first line with its continuations from a place on that is not the end, and the place after it.
pub(crate) fn first_unfolded(
    alloc: Global,
    text: &[u8],
    at: Position,
) -> Result<(Unfolded<'_>, Position), NoMemory>
    requires place { IsPlace text.now at }
    requires filled { at.offset < length text.now }
    ensures exact { IfOk result (λ found.
        logical_from text.now at ≡ found.0 ∷ logical_from text.now found.1) }
    ensures later { IfOk result (λ found. at.offset < found.1.offset) }
    ensures place { IfOk result (λ found. IsPlace text.now found.1) }
    ensures passed { IfOk result (λ found. IsLinesAfter text.now at found.1) }
{
    let number = at.line;
    let (first, after) = first_line(text, at);
    if !goes_on(text, after) {
        let line = Unfolded {
            number,
            first,
            joined: None,
        };
        return Ok((line, after));
    }
    let (octets, after) = join(alloc, text, first, after)?;
    let line = Unfolded {
        number,
        first,
        joined: Some(octets),
    };
    Ok((line, after))
}
