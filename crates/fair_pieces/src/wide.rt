//! Searches of many entries, told by their headers.

ghost use Rattle.std.specs.Prelude.{◌≡◌, drop};
ghost use Rattle.fair_pieces.specs.Wide.{inside, past, begins_search, is_of_base, is_wide};

use ber_elements::{Header, header};

/// The octets behind so many.
fn behind(count: usize, octets: &[u8]) -> &[u8]
    ensures { result.now ≡ drop count octets.now }
{
    if count <= octets.len() {
        octets.split_at(count).1
    } else {
        &[]
    }
}

/// The octets behind the header at the front.
fn inside(octets: &[u8]) -> &[u8]
    ensures { result.now ≡ inside octets.now }
{
    match header(octets) {
        Header::Head { head, .. } => behind(head, octets),
        Header::Short | Header::Bad => &[],
    }
}

/// The octets behind the element at the front.
fn past(octets: &[u8]) -> &[u8]
    ensures { result.now ≡ past octets.now }
{
    match header(octets) {
        Header::Head { head, len, .. } => behind(len, behind(head, octets)),
        Header::Short | Header::Bad => &[],
    }
}

/// Whether a search request begins there.
fn begins_search(operation: &[u8]) -> bool
    ensures { result ≡ begins_search operation.now }
{
    match operation {
        [] => false,
        [tag, ..] => *tag == 0x63,
    }
}

/// Whether the scope that stands there is that of the base object.
fn is_of_base(scope: &[u8]) -> bool
    ensures { result ≡ is_of_base scope.now }
{
    match scope {
        [tag, len, value, ..] => *tag == 0x0a && *len == 1 && *value == 0,
        _ => false,
    }
}

/// Whether the octets of a message are those of a search of another scope than that of the base
/// object (RFC 4511 4.5.1.2), as far as its headers say. This takes no memory.
#[tactic(auto, unfolding(crate::specs::Wide::is_wide))]
pub fn is_wide(message: &[u8]) -> bool
    ensures { result ≡ is_wide message.now }
{
    let operation = past(inside(message));
    begins_search(operation) && !is_of_base(past(inside(operation)))
}
