//! Elements read where they lie.

ghost use Rattle.std.specs.Prelude.{◌≡◌, ◌<◌, ◌≤◌, ◌^◌, ℕ, IfOk, Some};
ghost use Rattle.ber_layout.specs.element.Pieces.{Piece, piece_of, piece_at, tagged_at, number_in, natural_in, are_pieces, any_tag, other_than};
ghost use Rattle.ber_layout.specs.components.Components.{begins};
ghost use Rattle.ber_layout.specs.element.Reading.{Gives, Finds, piece_view};

use crate::kinds::ReadFault;
use ber_elements::{Header, header, read_int};

/// An element at the front of some octets, and what follows it.
#[derive(Clone, Copy)]
pub struct Element<'a> {
    pub tag: u8,
    pub content: &'a [u8],
    pub rest: &'a [u8],
}

/// The element at the front, if there is one. This takes no memory.
#[tactic(auto, unfolding(crate::specs::element::Pieces::piece_at, crate::specs::element::Pieces::piece_of))]
pub fn first_element(bytes: &[u8]) -> Option<Element<'_>>
    ensures { Finds piece_view result (piece_at bytes.now) }
{
    match header(bytes) {
        Header::Head { tag, head, len } => {
            let (_, behind) = bytes.split_at(head);
            if behind.len() < len {
                return None;
            }
            let (content, rest) = behind.split_at(len);
            Some(Element { tag, content, rest })
        }
        Header::Short => None,
        Header::Bad => None,
    }
}

/// The element at the front, which has to be there.
pub fn any_element(bytes: &[u8]) -> Result<Element<'_>, ReadFault>
    ensures { Gives piece_view result (piece_at bytes.now) }
{
    match first_element(bytes) {
        None => Err(ReadFault::BadMessage),
        Some(found) => Ok(found),
    }
}

/// The element at the front, which has this tag.
#[tactic(auto, unfolding(crate::specs::element::Pieces::tagged_at))]
pub fn tagged(tag: u8, bytes: &[u8]) -> Result<Element<'_>, ReadFault>
    ensures { Gives piece_view result (tagged_at tag bytes.now) }
{
    let found = any_element(bytes)?;
    if found.tag != tag {
        return Err(ReadFault::BadMessage);
    }
    Ok(found)
}

/// Whether the first octet is this tag.
pub fn begins(tag: u8, bytes: &[u8]) -> bool
    ensures { result ≡ begins tag bytes.now }
{
    match bytes {
        [] => false,
        [first, ..] => *first == tag,
    }
}

/// The natural number of a content, from `low` to `high`.
#[tactic(auto, unfolding(crate::specs::element::Pieces::number_in))]
pub fn number(low: u32, high: u32, content: &[u8]) -> Result<u32, ReadFault>
    ensures value { Gives (λ value. value) result (number_in low high content.now) }
    ensures range { IfOk result (λ number. (low ≤ number) × (number ≤ high)) }
{
    match read_int(content) {
        None => Err(ReadFault::BadMessage),
        Some(value) => {
            if value < i64::from(low) {
                return Err(ReadFault::BadMessage);
            }
            if value > i64::from(high) {
                return Err(ReadFault::BadMessage);
            }
            Ok(value as u32)
        }
    }
}

/// Whether the octets are whole elements.
pub fn is_further(bytes: &[u8]) -> bool
    ensures { result ≡ are_pieces any_tag bytes.now }
{
    let mut rest = bytes;
    while !rest.is_empty() {
        match first_element(rest) {
            None => return false,
            Some(found) => rest = found.rest,
        }
    }
    true
}

/// Whether the octets are whole elements, none with this tag.
pub fn is_further_but(tag: u8, bytes: &[u8]) -> bool
    ensures { result ≡ are_pieces (other_than tag) bytes.now }
{
    let mut rest = bytes;
    while !rest.is_empty() {
        match first_element(rest) {
            None => return false,
            Some(found) => {
                if found.tag == tag {
                    return false;
                }
                rest = found.rest;
            }
        }
    }
    true
}
