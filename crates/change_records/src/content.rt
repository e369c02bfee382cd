//! The lines of a text that are no comments.

ghost use Rattle.std.specs.Prelude.{◌≡◌, IfOk};
ghost use Rattle.ldif_records.specs.lines.Places.{IsPlace, content_from};

use crate::types::NoMemory;
use ldif_records::{Position, Unfolded, next_content};
use std::alloc::Global;

/// The lines from a place on, with their continuations, that are no comments. The error comes where memory is refused.
pub(crate) fn content_from(
    alloc: Global,
    text: &[u8],
    from: Position,
) -> Result<Vec<Unfolded<'_>>, NoMemory>
    requires { IsPlace text.now from }
    ensures { IfOk result (λ lines. lines.items ≡ content_from text.now from) }
{
    let mut lines = Vec::new(alloc);
    let (mut line, mut at) = next_content(alloc, text, from)?;
    'lines: while let Some(found) = line {
        lines.push(found)?;
        (line, at) = next_content(alloc, text, at)?;
    }
    Ok(lines)
}
