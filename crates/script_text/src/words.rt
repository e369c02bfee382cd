//! The words of a line: numbers and hexadecimal.

ghost use Rattle.std.specs.Prelude.{◌≡◌, ◌≤◌, ◌&&◌, nat_le, length, IfOk};
ghost use Rattle.std.specs.Char.{is_ascii_digit};
ghost use Rattle.std.specs.List.{AllPass, list_all, before_first, after_first};
ghost use Rattle.std.specs.Str.Parse.{digits_value};
ghost use Rattle.script_text.specs.LineReading.{is_space, in_range, number_of, octets_of, sent_by, event_of};

use crate::event::ScriptEvent;
use hex::FromHexError;
use plain_values::{Octets, position_of};
use std::alloc::{AllocError, Global};

// The number that at most ten decimal digits write.
fn value(digits: &[u8]) -> u64
    requires few { length digits.now ≤ 10 }
    requires digits { AllPass is_ascii_digit digits.now }
    ensures { result ≡ digits_value 10 digits.now }
{
    let mut value = 0u64;
    for digit in digits {
        value = value * 10 + u64::from(*digit - b'0');
    }
    value
}

// Whether the octets are all decimal digits.
fn all_digits(octets: &[u8]) -> bool
    ensures { result ≡ list_all is_ascii_digit octets.now }
{
    octets.iter().all(|octet| octet.is_ascii_digit())
}

// Whether there are at most ten octets, all decimal digits.
fn are_digits(octets: &[u8]) -> bool
    ensures { result ≡ nat_le (length octets.now) 10 && list_all is_ascii_digit octets.now }
{
    octets.len() <= 10 && all_digits(octets)
}

// The value where it is the number of a connection.
fn in_range(value: u64) -> Option<u32>
    ensures { result ≡ in_range value }
{
    if value < 1 || value > u64::from(u32::MAX) {
        return None;
    }
    Some(value as u32)
}

// The number of a connection.
#[tactic(auto, unfolding(crate::specs::LineReading::number_of))]
fn number(digits: &[u8]) -> Option<u32>
    ensures { result ≡ number_of digits.now }
{
    if !are_digits(digits) {
        return None;
    }
    in_range(value(digits))
}

// The octets that pairs of hexadecimal digits write.
#[tactic(auto, unfolding(crate::specs::LineReading::octets_of))]
fn octets(alloc: Global, digits: &[u8]) -> Result<Option<Octets>, AllocError>
    ensures { IfOk result (λ octets. octets ≡ octets_of digits.now) }
{
    if digits.is_empty() {
        return Ok(None);
    }
    match hex::decode(alloc, digits) {
        Ok(bytes) => Ok(Some(Octets::from_vec(bytes))),
        Err(FromHexError::OutOfMemory) => Err(AllocError),
        Err(_) => Ok(None),
    }
}

// The octets before the first space, and those after it.
fn cut_at_space(octets: &[u8]) -> (&[u8], &[u8])
    ensures before { result.0.now ≡ before_first is_space octets.now }
    ensures after { result.1.now ≡ after_first is_space octets.now }
{
    let space = position_of(octets, b' ');
    if space < octets.len() {
        (octets.split_at(space).0, octets.split_at(space + 1).1)
    } else {
        octets.split_at(octets.len())
    }
}

// The event of `N HEX`.
#[tactic(auto, unfolding(crate::specs::LineReading::sent_by))]
fn sent(alloc: Global, rest: &[u8]) -> Result<Option<ScriptEvent>, AllocError>
    ensures { IfOk result (λ event. event ≡ sent_by rest.now) }
{
    let (digits, pairs) = cut_at_space(rest);
    let Some(number) = number(digits) else {
        return Ok(None);
    };
    match octets(alloc, pairs)? {
        None => Ok(None),
        Some(octets) => Ok(Some(ScriptEvent::Bytes(number, octets))),
    }
}

// The event that a line is the text of.
#[tactic(auto, unfolding(crate::specs::LineReading::event_of))]
pub(crate) fn event(alloc: Global, line: &[u8]) -> Result<Option<ScriptEvent>, AllocError>
    ensures { IfOk result (λ event. event ≡ event_of line.now) }
{
    if line.starts_with(b"open ") {
        return Ok(number(line.split_at(5).1).map(ScriptEvent::Opened));
    }
    if line.starts_with(b"send ") {
        return sent(alloc, line.split_at(5).1);
    }
    if line.starts_with(b"end ") {
        return Ok(number(line.split_at(4).1).map(ScriptEvent::Ended));
    }
    Ok(None)
}
