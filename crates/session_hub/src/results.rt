//! Results with no matched name.

ghost use Rattle.std.specs.Prelude.{◌≡◌};
ghost use Rattle.op_read.specs.read_model.Views.{result_of};
ghost use Rattle.session_model.specs.ldap_msg.Plain.{IsPlainResult};

use dir_tree::plain_values::Octets;
use session_model::ldap_msg::{LdapResult, ResultCode};
use std::alloc::Global;

/// The result of this code, with no matched name (RFC 4511 4.1.9). This takes no memory.
pub fn result_of(alloc: Global, code: ResultCode) -> LdapResult
    ensures exact { result ≡ result_of code }
    ensures plain { IsPlainResult result }
{
    LdapResult {
        code,
        matched: Octets::from_vec(Vec::new(alloc)),
    }
}
