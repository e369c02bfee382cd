//! Extended operations answered.

ghost use Rattle.std.specs.Prelude.{◌≡◌, ◌++◌, [], ◌∷◌, codes, IfOk, OnOk, OnErr, Some, None};
ghost use Rattle.dir_tree.specs.dn_names.Printing.{print_name};
ghost use Rattle.session_model.specs.ldap_msg.declared.kinds.Reply.TheVariants as reply;
ghost use Rattle.session_model.specs.ldap_msg.declared.operations.ResultCode.TheVariants as code;
ghost use Rattle.op_read.specs.read_model.Views.{result_of as result_with};
ghost use Rattle.op_read.specs.Short.{Puts};
ghost use Rattle.session_hub.specs.WhoAmI.{authz_id, asks_who, extended_replies};

use crate::results::result_of;
use dir_tree::dn_names::Dn;
use dir_tree::plain_values::Octets;
use op_read::acdf_filters::Requester;
use op_read::directory::printed;
use session_model::ldap_msg::{Reply, ResultCode, put_reply};
use std::alloc::{AllocError, Global};

/// The name of the operation Who am I (RFC 4532 2.1).
const WHO_AM_I: &[u8] = b"1.3.6.1.4.1.4203.1.11.3";

fn asks_who(name: &Octets, value: &Option<Octets>) -> bool
    ensures { result ≡ asks_who name.now value.now }
{
    name.as_slice() == WHO_AM_I && value.is_none()
}

/// A name as an authorization identity.
fn dn_id(alloc: Global, name: &Dn) -> Result<Octets, AllocError>
    ensures { IfOk result (λ id. id ≡ codes "dn:" ++ print_name name.now) }
{
    let text = printed(alloc, name)?;
    let mut id = b"dn:".to_vec(alloc)?;
    id.extend_from_slice(text.as_slice())?;
    Ok(Octets::from_vec(id))
}

/// The requester's authorization identity; none is had for want of memory.
fn authz_id(alloc: Global, who: &Requester) -> Result<Octets, AllocError>
    ensures { IfOk result (λ id. id ≡ authz_id who.now) }
{
    match &who.name {
        Some(name) => dn_id(alloc, name),
        None => Ok(Octets::from_vec(Vec::new(alloc))),
    }
}

/// Appends who the requester is.
fn put_who(alloc: Global, who: &Requester, id: u32, out: &mut Vec<u8>) -> Result<(), AllocError>
    ensures ok { OnOk result (Puts id
        (reply.Extended (result_with code.Success) None (Some (authz_id who.now)) ∷ [])
        out.old.items out.new.items) }
    ensures err { OnErr result (out.new.items ≡ out.old.items) }
{
    let found = authz_id(alloc, who)?;
    let ended = result_of(alloc, ResultCode::Success);
    put_reply(out, id, &Reply::Extended(ended, None, Some(found)))
}

/// Appends the reply to an extended operation of this name.
#[inline(never)] // what it needs is not to be cleared for each bind
pub fn answer_extended(
    alloc: Global,
    who: &Requester,
    id: u32,
    name: &Octets,
    value: &Option<Octets>,
    out: &mut Vec<u8>,
) -> Result<(), AllocError>
    ensures ok { OnOk result (Puts id
        (extended_replies who.now name.now value.now)
        out.old.items out.new.items) }
    ensures err { OnErr result (out.new.items ≡ out.old.items) }
{
    if asks_who(name, value) {
        put_who(alloc, who, id, out)
    } else {
        let ended = result_of(alloc, ResultCode::ProtocolError);
        put_reply(out, id, &Reply::Extended(ended, None, None))
    }
}
