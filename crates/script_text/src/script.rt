//! Scripts, line by line.

ghost use Rattle.std.specs.Prelude.{◌≡◌, ℕ, Ok, Err, IfOk, MatchResult, Some};
ghost use Rattle.script_text.specs.LineText.{is_silent};
ghost use Rattle.script_text.specs.script.Script.{IsScript, IsFirstBadLine, OpensOnce, AreFilled};
ghost use Rattle.script_text.specs.script.ScriptReading.{Gives, IsCause, admitted, after_line, script_of};

use crate::event::{ScriptEvent, ScriptFault};
use crate::lines::first_line;
use crate::reading::Reading;
use crate::recording::Recording;
use crate::words::event;
use std::alloc::Global;

// Whether the line says nothing.
fn is_silent(line: &[u8]) -> bool
    ensures { result ≡ is_silent line.now }
{
    match line {
        [] => true,
        [first, ..] => *first == b'#',
    }
}

// The events with that of the line of this number.
fn admit(reading: Reading, number: u64, event: ScriptEvent) -> Result<Reading, ScriptFault>
    ensures { Gives result (admitted reading number (Some event)) }
{
    if !reading.may_take(&event) {
        return Err(ScriptFault::Bad { line: number });
    }
    Ok(reading.with(event)?)
}

// The events after the line of this number.
#[tactic(auto, unfolding(crate::specs::script::ScriptReading::after_line))]
fn after_line(
    alloc: Global,
    reading: Reading,
    number: u64,
    line: &[u8],
) -> Result<Reading, ScriptFault>
    ensures { Gives result (after_line reading number line.now) }
{
    if is_silent(line) {
        return Ok(reading);
    }
    match event(alloc, line)? {
        Some(event) => admit(reading, number, event),
        None => Err(ScriptFault::Bad { line: number }),
    }
}

// The events of the text.
fn read(alloc: Global, text: &[u8]) -> Result<Reading, ScriptFault>
    ensures { Gives result (script_of text.now) }
{
    let mut reading = Reading::new(alloc);
    let mut rest = text;
    let mut number = 0u64;
    while !rest.is_empty() {
        let (line, after) = first_line(rest);
        number += 1;
        reading = after_line(alloc, reading, number, line)?;
        rest = after;
    }
    Ok(reading)
}

/// Reads a script. A line ends in LF, or in CR and LF; that of the last one may be missing. Empty
/// lines say nothing, nor do those whose first octet is `#`. Every other line is one of `open N`,
/// `send N HEX` and `end N`, with one space between its parts. N writes a number of 32 bits above 0
/// in at most ten decimal digits; HEX writes at least one octet, each in two hexadecimal digits of
/// either case (RFC 4648 8). A number is opened once; octets and the end come on one that is open.
///
/// `Bad` tells the first bad line of a text that is no script, and comes for no other text;
/// `NoMemory` may come in place of any answer.
pub fn read_script(alloc: Global, text: &[u8]) -> Result<Recording, ScriptFault>
    ensures ok { IfOk result (λ events. IsScript text.now events) }
    ensures bad { (line : ℕ) → result ≡ Err (ScriptFault.Bad line) → IsFirstBadLine text.now line }

    // The same, as it is computed.
    ensures exact { MatchResult result
        (λ events. script_of text.now ≡ Ok events)
        (λ fault. IsCause fault (script_of text.now)) }

    // No number is opened twice, and no octets are empty.
    ensures fits { IfOk result (λ events. OpensOnce events × AreFilled events) }
{
    Ok(read(alloc, text)?.into_events())
}
