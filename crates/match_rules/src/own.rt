//! Values that are their own keys.

ghost use Rattle.std.specs.Prelude.{◌≡◌, ◌≢◌, ◌↔◌, [], All, IsTrue, Some};
ghost use Rattle.match_rules.specs.Keys.{key_of};
ghost use Rattle.match_rules.specs.OwnKeys.{IsSmall, IsOwn};

use crate::rules::Rule;

/// Whether preparation leaves the octets as they are because each of them stands for itself. It takes no memory, where
/// `prepare` does. Other values may be their own keys too, as "ada lovelace".
pub fn is_own_key(rule: Rule, octets: &[u8]) -> bool
    ensures exact { IsTrue result ↔ IsOwn rule octets.now }
    ensures key { IsTrue result → key_of rule octets.now ≡ Some octets.now }
{
    is_own(rule, octets)
}

fn is_own(rule: Rule, octets: &[u8]) -> bool
    ensures { IsTrue result ↔ IsOwn rule octets.now }
{
    match rule {
        Rule::Text => is_small_text(octets),
        Rule::Ascii => is_small_text(octets),
        Rule::Phone => false,
        Rule::Country => false,
        Rule::Octets => true,
    }
}

fn is_small_text(octets: &[u8]) -> bool
    ensures { IsTrue result ↔ ((octets.now ≢ []) × All IsSmall octets.now) }
{
    !octets.is_empty()
        && octets
            .iter()
            .all(|octet| matches!(*octet, b'!'..=b'@' | b'['..=b'~'))
}
