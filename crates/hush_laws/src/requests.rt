//! The requests by which a connection may tell what others did in a subtree.

ghost use Rattle.std.specs.Prelude.{◌≡◌, IfOk};
ghost use Rattle.std.specs.Option.{option_map_or};
ghost use Rattle.session_hub.specs.session_model.ldap_msg.reading.Messages.{message_of};
ghost use Rattle.hush_laws.specs.Requests.{is_change, binds_within, failing_request, failing_asked};

use crate::part::Part;
use dir_tree::NoMemory;
use dir_tree::dn_names::{Dn, is_prefix};
use op_read::directory::read_named;
use session_hub::session_model::ldap_msg::{ReadFault, Request, read_request};
use std::alloc::{AllocError, Global};

/// Whether the request asks for a change of entries: a modify, an add, a delete or a rename (RFC 4511 4.6 to 4.9).
pub fn is_change(request: &Request) -> bool
    ensures exact { result ≡ is_change request.now }
{
    match request {
        Request::Update(_) => true,
        Request::Bind(_) | Request::Unbind | Request::Search(_) | Request::Compare(_) => false,
        Request::Abandon(_) | Request::Extended(_, _) => false,
    }
}

/// Whether the request is a bind with a name at or below this one (RFC 4511 4.2). The error comes where memory is wanted.
pub fn binds_within(alloc: Global, top: &Dn, request: &Request) -> Result<bool, NoMemory>
    ensures ok { IfOk result (λ binds. binds ≡ binds_within top.now request.now) }
{
    let Request::Bind(bind) = request else {
        return Ok(false);
    };
    match read_named(alloc, bind.name.as_slice())? {
        Some(name) => Ok(is_prefix(top, &name)),
        None => Ok(false),
    }
}

// The first part that forbids the request.
fn failing_asked(alloc: Global, top: &Dn, request: &Request) -> Result<Option<Part>, NoMemory>
    ensures ok { IfOk result (λ part. part ≡ failing_asked top.now request.now) }
{
    if is_change(request) {
        return Ok(Some(Part::Change));
    }
    if binds_within(alloc, top, request)? {
        return Ok(Some(Part::Bind));
    }
    Ok(None)
}

/// The first part that forbids the message of these octets; None exactly where none does, as for octets that are no message.
/// The error comes where memory is wanted.
pub fn failing_request(alloc: Global, top: &Dn, octets: &[u8]) -> Result<Option<Part>, NoMemory>
    ensures ok { IfOk result (λ part. part ≡ failing_request top.now octets.now) }
{
    match read_request(alloc, octets) {
        Ok(message) => failing_asked(alloc, top, &message.request),
        Err(ReadFault::NoMemory) => Err(AllocError),
        Err(ReadFault::BadMessage) => Ok(None),
    }
}
