//! The limit of a search.

ghost use Rattle.std.specs.Prelude.{◌≡◌, ◌==◌, ◌≤◌, ◌&&◌, nat_le, not, length};
ghost use Rattle.std.specs.Char.{is_ascii_digit};
ghost use Rattle.std.specs.List.{AllPass, list_all};
ghost use Rattle.std.specs.Str.Parse.{digits_value};
ghost use Rattle.client_core.specs.Values.{in_range, are_digits, limit_in};

// The number that at most ten decimal digits write.
fn value(digits: &[u8]) -> u64
    requires few { length digits.now ≤ 10 }
    requires digits { AllPass is_ascii_digit digits.now }
    ensures exact { result ≡ digits_value 10 digits.now }
{
    let mut value = 0u64;
    for digit in digits {
        value = value * 10 + u64::from(*digit - b'0');
    }
    value
}

// Whether the octets are all decimal digits.
fn all_digits(octets: &[u8]) -> bool
    ensures exact { result ≡ list_all is_ascii_digit octets.now }
{
    octets.iter().all(|octet| octet.is_ascii_digit())
}

// Whether there are one to ten octets, all decimal digits.
fn are_digits(octets: &[u8]) -> bool
    ensures exact { result ≡ are_digits octets.now }
{
    !octets.is_empty() && octets.len() <= 10 && all_digits(octets)
}

// The value, where it is at most maxInt (RFC 4511 4.1.1).
fn in_range(value: u64) -> Option<u32>
    ensures exact { result ≡ in_range value }
{
    if value > 2_147_483_647 {
        return None;
    }
    Some(value as u32)
}

/// The number that one to ten digits write, if it may be a limit.
#[tactic(auto, unfolding(crate::specs::Values::limit_in))]
pub(crate) fn limit_in(text: &[u8]) -> Option<u32>
    ensures exact { result ≡ limit_in text.now }
{
    if !are_digits(text) {
        return None;
    }
    in_range(value(text))
}
