//! The octets of a value, from its text.

ghost use Rattle.std.specs.Prelude.{◌≡◌, IfOk, IfSome};
ghost use Rattle.dn_names.specs.Classes.{class_of, is_hex};
ghost use Rattle.dn_names.specs.Reading.{without_spaces, hex_value, piece_of, value_octets};

use crate::classes::{Class, classify};
use plain_values::position_of;
use std::alloc::{AllocError, Global};

/// Where in a value's text reading is.
#[derive(Clone, Copy)]
pub(crate) enum Reading {
    /// The next octet begins a piece.
    Plain,
    /// A backslash has come.
    Escaped,
    /// A backslash and one hexadecimal digit have come, which stands for so much.
    HalfByte(u8),
}

/// What an octet of a value's text is.
#[derive(Clone, Copy)]
pub(crate) enum Piece {
    /// A part of an escape that goes on.
    Within(Reading),
    /// A space that no backslash stands before.
    BareSpace,
    /// The end of a piece, which stands for this octet.
    Octet(u8),
}

fn is_hex_digit(octet: u8) -> bool
    ensures exact { result ≡ is_hex (class_of octet) }
{
    match classify(octet) {
        Class::HexLetter | Class::Zero | Class::Digit => true,
        _ => false,
    }
}

// What a hexadecimal digit stands for.
fn digit(octet: u8) -> u8
    ensures exact { result ≡ hex_value octet }
{
    match octet {
        b'0'..=b'9' => octet - b'0',
        b'A'..=b'Z' => (octet - b'A' + 10) % 16,
        b'a'..=b'z' => (octet - b'a' + 10) % 16,
        _ => 4,
    }
}

fn read_piece(reading: Reading, octet: u8) -> Piece
    ensures exact { result ≡ piece_of reading octet }
{
    match reading {
        Reading::Plain => match octet {
            b'\\' => Piece::Within(Reading::Escaped),
            b' ' => Piece::BareSpace,
            _ => Piece::Octet(octet),
        },
        Reading::Escaped => {
            if is_hex_digit(octet) {
                Piece::Within(Reading::HalfByte(16 * digit(octet)))
            } else {
                Piece::Octet(octet)
            }
        }
        Reading::HalfByte(high) => Piece::Octet(high.wrapping_add(digit(octet))),
    }
}

/// The text without the spaces at its front.
pub(crate) fn skip_spaces(text: &[u8]) -> &[u8]
    ensures exact { result.now ≡ without_spaces text.now }
{
    let mut rest = text;
    while let [b' ', after @ ..] = rest {
        rest = after;
    }
    rest
}

/// The octets that a value's text stands for, within the text, where it has no escape and ends in no space.
#[tactic(auto, unfolding(crate::specs::Reading::value_octets))]
pub(crate) fn bare_octets(text: &[u8]) -> Option<&[u8]>
    ensures exact { IfSome result (λ octets. octets.now ≡ value_octets text.now) }
{
    let octets = skip_spaces(text);
    let len = octets.len();
    if len == 0 {
        return Some(octets);
    }
    if octets[len - 1] == b' ' || position_of(octets, b'\\') != len {
        return None;
    }
    Some(octets)
}

/// The octets that a value's text stands for: escapes read, bare spaces at both ends skipped.
#[tactic(auto, unfolding(crate::specs::Reading::value_octets))]
pub(crate) fn read_octets(alloc: Global, text: &[u8]) -> Result<Vec<u8>, AllocError>
    ensures ok { IfOk result (λ octets. octets.items ≡ value_octets text.now) }
{
    let text = skip_spaces(text);
    let mut octets = Vec::with_capacity(alloc, text.len())?;
    let mut kept = 0;
    let mut reading = Reading::Plain;
    for octet in text {
        match read_piece(reading, *octet) {
            Piece::Within(escape) => reading = escape,
            Piece::BareSpace => {
                octets.push(b' ')?;
                reading = Reading::Plain;
            }
            Piece::Octet(octet) => {
                octets.push(octet)?;
                kept = octets.len();
                reading = Reading::Plain;
            }
        }
    }
    octets.truncate(kept);
    Ok(octets)
}
