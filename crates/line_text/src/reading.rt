//! Octets read back from one line.

ghost use Rattle.std.specs.Prelude.{◌≡◌, ◌∷◌, ◌≤◌, Some, None, length, IfOk, IfSome, IfNone, option_map};
ghost use Rattle.line_text.specs.Escapes.{octet_of, read_back};

use std::alloc::{AllocError, Global};

// The octet that two digits behind a backslash stand for.
fn octet_of(digits: &[u8]) -> Option<u8>
    ensures { result ≡ octet_of digits.now }
{
    match digits {
        [b'0', b'a'] => Some(b'\n'),
        [b'0', b'd'] => Some(b'\r'),
        [b'5', b'c'] => Some(b'\\'),
        _ => None,
    }
}

// The octet of the escape whose digits are at the front, and what follows.
fn escape_at_front(text: &[u8]) -> Option<(u8, &[u8])>
    ensures found { IfSome result (λ cut. read_back (92 ∷ text.now)
        ≡ option_map (λ more. cut.0 ∷ more) (read_back cut.1.now)) }
    ensures shorter { IfSome result (λ cut. length cut.1.now ≤ length text.now) }
    ensures none { IfNone result (read_back (92 ∷ text.now) ≡ None) }
{
    if text.len() < 2 {
        return None;
    }
    let (digits, rest) = text.split_at(2);
    match octet_of(digits) {
        Some(octet) => Some((octet, rest)),
        None => None,
    }
}

// The first octet that a text stands for whose first octet and rest are these, and what follows.
fn first_octet(octet: u8, rest: &[u8]) -> Option<(u8, &[u8])>
    ensures found { IfSome result (λ cut. read_back (octet ∷ rest.now)
        ≡ option_map (λ more. cut.0 ∷ more) (read_back cut.1.now)) }
    ensures shorter { IfSome result (λ cut. length cut.1.now ≤ length rest.now) }
    ensures none { IfNone result (read_back (octet ∷ rest.now) ≡ None) }
{
    if octet == b'\\' {
        escape_at_front(rest)
    } else {
        Some((octet, rest))
    }
}

/// The octets that a text stands for, in which `\0a`, `\0d` and `\5c` are LF, CR and the backslash; None where another
/// backslash is in it. The error comes where memory is wanted.
pub fn read_back(alloc: Global, text: &[u8]) -> Result<Option<Vec<u8>>, AllocError>
    ensures exact { IfOk result (λ octets. option_map (λ found. found.items) octets ≡ read_back text.now) }
{
    let mut octets = Vec::new(alloc);
    let mut rest = text;
    'octets: while let Some((first, after)) = rest.split_first() {
        let Some((octet, more)) = first_octet(*first, after) else {
            return Ok(None);
        };
        octets.push(octet)?;
        rest = more;
    }
    Ok(Some(octets))
}
