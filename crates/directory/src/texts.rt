//! Names and octets as fields.

ghost use Rattle.std.specs.Prelude.{◌≡◌, IfOk};
ghost use Rattle.std.specs.Result.{result_ok};
ghost use Rattle.dir_tree.specs.dn_names.parsing.NameText.{read_name};
ghost use Rattle.dir_tree.specs.dn_names.Printing.{print_name};

use dir_tree::NoMemory;
use dir_tree::dn_names::{BadName, Dn, parse, print};
use ldap_msg::plain_values::Octets;
use std::alloc::{AllocError, Global};

/// The name that the octets say (RFC 4514); None where they say none. The error comes where memory is wanted.
pub fn read_named(alloc: Global, octets: &[u8]) -> Result<Option<Dn>, NoMemory>
    ensures ok { IfOk result (λ name. name ≡ result_ok (read_name octets.now)) }
{
    match parse(alloc, octets) {
        Ok(name) => Ok(Some(name)),
        Err(BadName::NoMemory) => Err(AllocError),
        Err(BadName::Text { .. }) => Ok(None),
        Err(BadName::Part { .. }) => Ok(None),
        Err(BadName::TooMany) => Ok(None),
    }
}

/// The octets in memory of their own; the error comes where there is none.
pub fn copied(alloc: Global, octets: &[u8]) -> Result<Octets, NoMemory>
    ensures ok { IfOk result (λ copy. copy ≡ octets.now) }
{
    Ok(Octets::from_vec(octets.to_vec(alloc)?))
}

/// The name as text (RFC 4514 section 2); the error comes where memory is wanted.
pub fn printed(alloc: Global, name: &Dn) -> Result<Octets, NoMemory>
    ensures ok { IfOk result (λ text. text ≡ print_name name.now) }
{
    let mut text = String::new(alloc);
    print(alloc, name, &mut text)?;
    Ok(Octets::from_vec(text.into_bytes()))
}
