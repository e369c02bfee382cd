//! Object identifiers in dotted form (RFC 4512 section 1.4).
ghost use Rattle.std.specs.Prelude.{◌≡◌, ◌==◌, length, option_map};
ghost use Rattle.std.specs.Char.{is_ascii_digit};
ghost use Rattle.std.specs.List.{list_all};
ghost use Rattle.schema_tables.specs.Oids.{is_number, is_dotted_oid, parts, names, oid_among, oid_of};

use crate::attributes::attribute_oid_named;
use crate::classes::class_oid_named;
use crate::roles::role_oid_named;

// Each octet is a digit.
fn are_digits(octets: &[u8]) -> bool
    ensures exact { result ≡ list_all is_ascii_digit octets.now }
{
    octets.iter().all(u8::is_ascii_digit)
}

// A decimal number without leading zeros.
fn is_number(digits: &[u8]) -> bool
    ensures exact { result ≡ is_number digits.now }
{
    !digits.is_empty() && are_digits(digits) && (digits.len() == 1 || digits[0] != b'0')
}

// Each part between the dots is a decimal number without leading zeros.
fn are_numbers(text: &[u8]) -> bool
    ensures exact { result ≡ list_all is_number (parts text.now) }
{
    text.split(|octet| *octet == b'.').all(is_number)
}

// How many parts the dots make.
fn part_count(text: &[u8]) -> usize
    ensures exact { result ≡ length (parts text.now) }
{
    text.split(|octet| *octet == b'.').count()
}

/// Whether the octets are a dotted object identifier, known or not: two or more numbers, with a dot
/// after each but the last. They are decimal, and only the number 0 begins with a zero.
#[tactic(auto, unfolding(crate::specs::Oids::is_dotted_oid))]
pub fn is_dotted_oid(text: &[u8]) -> bool
    ensures exact { result ≡ is_dotted_oid text.now }
{
    part_count(text) >= 2 && are_numbers(text)
}

// The object identifier of the attribute type, class or role whose name the octets are.
fn oid_named(octets: &[u8]) -> Option<&'static str>
    ensures exact { option_map (λ oid. oid.now) result ≡ oid_among names octets.now }
{
    attribute_oid_named(octets)
        .or(class_oid_named(octets))
        .or(role_oid_named(octets))
}

/// The dotted object identifier for which a text stands. The name of an attribute type, a class or a
/// role, its ASCII letters in either case, stands for what the tables give it; a dotted object
/// identifier, known or not, stands for itself. None comes for every other text, and for no other.
pub fn oid_of(text: &str) -> Option<&str>
    ensures exact { option_map (λ oid. oid.now) result ≡ oid_of text.now }
{
    match oid_named(text.as_bytes()) {
        Some(oid) => Some(oid),
        None if is_dotted_oid(text.as_bytes()) => Some(text),
        None => None,
    }
}
