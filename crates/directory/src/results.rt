//! Results of operations (RFC 4511 4.1.9).

ghost use Rattle.std.specs.Prelude.{◌≡◌, IfOk};
ghost use Rattle.read_model.specs.Views.{result_with, result_of};

use crate::texts::printed;
use dir_tree::NoMemory;
use dir_tree::dn_names::Dn;
use ldap_msg::plain_values::Octets;
use ldap_msg::{LdapResult, ResultCode};
use std::alloc::Global;

/// The result with the code and no name.
pub fn result_of(alloc: Global, code: ResultCode) -> LdapResult
    ensures exact { result ≡ result_of code }
{
    LdapResult {
        code,
        matched: Octets::from_vec(Vec::new(alloc)),
    }
}

/// The result with the code and the name; the error comes where memory is wanted.
pub fn result_with(alloc: Global, code: ResultCode, name: &Dn) -> Result<LdapResult, NoMemory>
    ensures ok { IfOk result (λ ended. ended ≡ result_with code name.now) }
{
    Ok(LdapResult {
        code,
        matched: printed(alloc, name)?,
    })
}
