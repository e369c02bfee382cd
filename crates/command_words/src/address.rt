//! The address on which a server listens.

ghost use Rattle.std.specs.Prelude.{◌≡◌, option_copied};
ghost use Rattle.command_words.specs.Address.{after_loopback, is_address, address_of};

use crate::number::number_within;

/// The port's text after the loopback address.
fn after_loopback(address: &str) -> Option<&str>
    ensures { option_copied result ≡ after_loopback address.now }
{
    address.strip_prefix("127.0.0.1:")
}

/// The loopback address of IPv4, and a port of TCP in one to five decimal digits, from 1 to 65,535.
#[tactic(auto, unfolding(crate::specs::Address::is_address))]
fn is_address(address: &str) -> bool
    ensures { result ≡ is_address address.now }
{
    match after_loopback(address) {
        Some(port) => number_within(5, 1, 65_535, port).is_some(),
        None => false,
    }
}

/// The text, where it is an address.
#[tactic(auto, unfolding(crate::specs::Address::address_of))]
pub fn address_of(text: &str) -> Option<&str>
    ensures { option_copied result ≡ address_of text.now }
{
    if is_address(text) { Some(text) } else { None }
}
