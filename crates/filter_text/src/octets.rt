//! The octets of a value, from its text.

ghost use Rattle.std.specs.Prelude.{◌≡◌, IfOk};
ghost use Rattle.filter_text.specs.Items.{hex_value, piece_of, value_of, part_of};

use plain_values::Octets;
use std::alloc::{AllocError, Global};

/// Where in a value's text reading is.
#[derive(Clone, Copy)]
pub(crate) enum Reading {
    /// The next octet stands for itself, or begins an escape.
    Plain,
    /// A backslash has come.
    Escaped,
    /// A backslash and one hexadecimal digit have come, which stands for so much.
    HalfByte(u8),
}

/// What an octet of a value's text is.
#[derive(Clone, Copy)]
pub(crate) enum Piece {
    /// A part of an escape that goes on.
    Within(Reading),
    /// The end of a piece, which stands for this octet.
    Octet(u8),
}

// What a hexadecimal digit stands for.
fn digit(octet: u8) -> u8
    ensures exact { result ≡ hex_value octet }
{
    match octet {
        b'0'..=b'9' => octet - b'0',
        b'A'..=b'Z' => (octet - b'A' + 10) % 16,
        b'a'..=b'z' => (octet - b'a' + 10) % 16,
        _ => 4,
    }
}

fn read_piece(reading: Reading, octet: u8) -> Piece
    ensures exact { result ≡ piece_of reading octet }
{
    match reading {
        Reading::Plain => match octet {
            b'\\' => Piece::Within(Reading::Escaped),
            _ => Piece::Octet(octet),
        },
        Reading::Escaped => Piece::Within(Reading::HalfByte(16 * digit(octet))),
        Reading::HalfByte(high) => Piece::Octet(high.wrapping_add(digit(octet))),
    }
}

/// The octets that a value's text stands for.
#[tactic(auto, unfolding(crate::specs::Items::value_of))]
pub(crate) fn read_value(alloc: Global, text: &[u8]) -> Result<Octets, AllocError>
    ensures ok { IfOk result (λ octets. octets ≡ value_of text.now) }
{
    let mut octets = Vec::with_capacity(alloc, text.len())?;
    let mut reading = Reading::Plain;
    for octet in text {
        match read_piece(reading, *octet) {
            Piece::Within(escape) => reading = escape,
            Piece::Octet(octet) => {
                octets.push(octet)?;
                reading = Reading::Plain;
            }
        }
    }
    Ok(Octets::from_vec(octets))
}

/// The first or the last part of substrings; None where its text is empty.
pub(crate) fn read_part(alloc: Global, text: &[u8]) -> Result<Option<Octets>, AllocError>
    ensures ok { IfOk result (λ part. part ≡ part_of text.now) }
{
    if text.is_empty() {
        Ok(None)
    } else {
        Ok(Some(read_value(alloc, text)?))
    }
}
