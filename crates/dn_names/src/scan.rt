//! Whether octets are in the outer grammar of names, and where they leave it.

ghost use Rattle.std.specs.Prelude.{◌≡◌, Some, IsTrue};
ghost use Rattle.dn_names.specs.declared.modes.Mode.TheVariants.{Start, PairStart, Word, ValueStart, InValue};
ghost use Rattle.dn_names.specs.Classes.{class_of};
ghost use Rattle.dn_names.specs.Modes.{step_of, text_fault};

use crate::classes::classify;
use crate::modes::{Mode, ends, step};

/// The place where the octets leave the outer grammar; None where they are in it.
#[tactic(auto, unfolding(crate::specs::Modes::text_fault))]
pub(crate) fn fault_place(octets: &[u8]) -> Option<usize>
    ensures exact { result ≡ text_fault octets.now }
{
    let mut mode = Mode::Start;
    for (place, octet) in octets.iter().enumerate() {
        match next_mode(mode, *octet) {
            Some(next) => mode = next,
            None => return Some(place),
        }
    }
    if ends(mode) { None } else { Some(octets.len()) }
}

// The state after an octet, or None where it may not follow. What most types and values are made of is not looked up.
fn next_mode(mode: Mode, octet: u8) -> Option<Mode>
    ensures exact { result ≡ step_of mode (class_of octet) }
{
    match mode {
        Mode::InValue if is_usual(octet) => Some(Mode::InValue),
        Mode::ValueStart if is_usual(octet) => Some(Mode::InValue),
        Mode::Word if is_small_letter(octet) => Some(Mode::Word),
        Mode::PairStart if is_small_letter(octet) => Some(Mode::Word),
        Mode::Start if is_small_letter(octet) => Some(Mode::Word),
        _ => step(mode, classify(octet)),
    }
}

// Whether the octet is a letter, a digit or another that stands for itself in a value; not of each such octet.
#[tactic(auto, unfolding(crate::specs::Classes::class_of))]
fn is_usual(octet: u8) -> bool
    ensures first { IsTrue result → step_of ValueStart (class_of octet) ≡ Some InValue }
    ensures within { IsTrue result → step_of InValue (class_of octet) ≡ Some InValue }
{
    matches!(octet, b'-'..=b':' | b'?'..=b'[' | b']'..=255)
}

// Whether the octet is a small letter, as nearly each of a type is.
#[tactic(auto, unfolding(crate::specs::Classes::class_of))]
fn is_small_letter(octet: u8) -> bool
    ensures first { IsTrue result → step_of Start (class_of octet) ≡ Some Word }
    ensures later { IsTrue result → step_of PairStart (class_of octet) ≡ Some Word }
    ensures within { IsTrue result → step_of Word (class_of octet) ≡ Some Word }
{
    matches!(octet, b'a'..=b'z')
}
