//! The rules, each with the syntax of its values.

ghost use Rattle.std.specs.Prelude.{◌≢◌, ◌≤◌, ◌↔◌, [], All, IsTrue, IsAscii, IsUtf8};
ghost use Rattle.match_rules.specs.Syntaxes.{IsLetter, IsPrintable, IsOf, IsPartOf};

use std::str;

/// A family of values that share one syntax and one preparation of keys.
#[derive(Clone, Copy, Debug, PartialEq, Eq, Hash)]
pub enum Rule {
    /// Non-empty UTF-8 text.
    Text,
    /// Non-empty ASCII text.
    Ascii,
    /// A telephone number: non-empty printable ASCII.
    Phone,
    /// Two ASCII letters.
    Country,
    /// Any octets, compared as they are.
    Octets,
}

/// Whether the octets are a value of the rule's syntax.
pub(crate) fn is_of(rule: Rule, octets: &[u8]) -> bool
    ensures { IsTrue result ↔ IsOf rule octets.now }
{
    match rule {
        Rule::Text => is_text(octets),
        Rule::Ascii => is_ascii_text(octets),
        Rule::Phone => is_printable_text(octets),
        Rule::Country => octets.len() == 2 && has_letters_alone(octets),
        Rule::Octets => true,
    }
}

/// Whether the octets are a part of some value of the rule's syntax.
pub(crate) fn is_part_of(rule: Rule, octets: &[u8]) -> bool
    ensures { IsTrue result ↔ IsPartOf rule octets.now }
{
    match rule {
        Rule::Text => is_text(octets),
        Rule::Ascii => is_ascii_text(octets),
        Rule::Phone => is_printable_text(octets),
        Rule::Country => matches!(octets.len(), 1..=2) && has_letters_alone(octets),
        Rule::Octets => true,
    }
}

fn is_text(octets: &[u8]) -> bool
    ensures { IsTrue result ↔ ((octets.now ≢ []) × IsUtf8 octets.now) }
{
    !octets.is_empty() && str::from_utf8(octets).is_ok()
}

fn is_ascii_text(octets: &[u8]) -> bool
    ensures { IsTrue result ↔ ((octets.now ≢ []) × IsAscii octets.now) }
{
    !octets.is_empty() && octets.is_ascii()
}

fn is_printable_text(octets: &[u8]) -> bool
    ensures { IsTrue result ↔ ((octets.now ≢ []) × All IsPrintable octets.now) }
{
    !octets.is_empty() && octets.iter().all(|octet| matches!(*octet, b' '..=b'~'))
}

fn has_letters_alone(octets: &[u8]) -> bool
    ensures { IsTrue result ↔ All IsLetter octets.now }
{
    octets.iter().all(|octet| octet.is_ascii_alphabetic())
}
