//! Who asks, and on which entry.

ghost use Rattle.std.specs.Prelude.{◌≡◌, IfOk};
ghost use Rattle.explanation.specs.NameWords.{anonymous, name_in, named, requester, target_of, who_of};

use crate::asked::NoMemory;
use acdf_filters::Requester;
use acdf_filters::aci_item::Level;
use dir_tree::dn_names::{BadName, Dn, parse};
use std::alloc::{AllocError, Global};

/// The name that the octets spell (RFC 4514), the empty one too; None where they spell none, or where it has more RDNs or a
/// longer value than names may have. The error comes where memory is refused.
pub fn read_name(alloc: Global, text: &[u8]) -> Result<Option<Dn>, NoMemory>
    ensures exact { IfOk result (λ name. name ≡ name_in text.now) }
{
    match parse(alloc, text) {
        Ok(name) => Ok(Some(name)),
        Err(BadName::NoMemory) => Err(AllocError),
        Err(BadName::Text { .. }) => Ok(None),
        Err(BadName::TooMany) => Ok(None),
        Err(BadName::Part { .. }) => Ok(None),
    }
}

fn anonymous() -> Requester
    ensures { result ≡ anonymous }
{
    Requester {
        name: None,
        level: Level::Anyone,
    }
}

/// The requester of a name: an anonymous one where the name is empty, else one known by a password.
fn requester(name: Dn) -> Requester
    ensures { result ≡ requester name }
{
    if name.len() == 0 {
        anonymous()
    } else {
        Requester {
            name: Some(name),
            level: Level::Simple,
        }
    }
}

/// The requester that the octets of a word say: `anonymous`, or a name (RFC 4514); None where they say none. A requester
/// with a name is one known by a password, and the empty name is that of an anonymous one (RFC 4513, 5.1.1). The error comes
/// where memory is refused.
#[tactic(auto, unfolding(crate::specs::NameWords::who_of))]
pub fn read_who(alloc: Global, word: &[u8]) -> Result<Option<Requester>, NoMemory>
    ensures exact { IfOk result (λ who. who ≡ who_of word.now) }
{
    if word == b"anonymous".as_slice() {
        return Ok(Some(anonymous()));
    }
    match read_name(alloc, word)? {
        Some(name) => Ok(Some(requester(name))),
        None => Ok(None),
    }
}

/// The name, where it isn't empty.
fn named(name: Dn) -> Option<Dn>
    ensures { result ≡ named name }
{
    if name.len() == 0 { None } else { Some(name) }
}

/// The name of an entry that the octets of a word spell (RFC 4514), which isn't empty; None where they spell none. The
/// error comes where memory is refused.
#[tactic(auto, unfolding(crate::specs::NameWords::target_of))]
pub fn read_target(alloc: Global, word: &[u8]) -> Result<Option<Dn>, NoMemory>
    ensures exact { IfOk result (λ name. name ≡ target_of word.now) }
{
    match read_name(alloc, word)? {
        Some(name) => Ok(named(name)),
        None => Ok(None),
    }
}
