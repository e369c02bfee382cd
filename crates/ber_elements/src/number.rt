//! Numbers from octets, the most significant first.

ghost use Rattle.std.specs.Prelude.{◌≡◌, ◌≤◌, ◌<◌, ◌+◌, ◌*◌, ◌^◌, length};
ghost use Rattle.ber_elements.specs.write.Element.{number_after};
ghost use Rattle.ber_elements.specs.Integer.{turned};

/// The number that some octets spell after a first octet.
pub fn number_of(first: u8, octets: &[u8]) -> u64
    requires { length octets.now ≤ 7 }
    ensures value { result ≡ number_after first octets.now }
    ensures bound { result < (first + 1) * 256 ^ length octets.now }
    ensures half { first < 128 → result < 2 ^ 63 }
{
    let mut number = u64::from(first);
    for octet in octets {
        number = number * 256 + u64::from(*octet);
    }
    number
}

/// The number that some octets spell after a first octet, each bit of theirs turned.
pub fn turned_number_of(first: u8, octets: &[u8]) -> u64
    requires { length octets.now ≤ 7 }
    ensures value { result ≡ number_after first (turned octets.now) }
    ensures bound { result < (first + 1) * 256 ^ length octets.now }
    ensures half { first < 128 → result < 2 ^ 63 }
{
    let mut number = u64::from(first);
    for octet in octets {
        number = number * 256 + u64::from(255 - *octet);
    }
    number
}
