//! The messages behind which a place is looked at.

ghost use Rattle.std.specs.Prelude.{◌≡◌, ◌&&◌, ◌||◌, IfOk};
ghost use Rattle.hush_looks.specs.Due.{is_bind, is_due_asked, is_due};

use dir_tree::NoMemory;
use hush_laws::is_change;
use session_hub::session_model::ldap_msg::{ReadFault, Request, read_request};
use std::alloc::{AllocError, Global};

// Whether the request is a bind (RFC 4511 4.2).
fn is_bind(request: &Request) -> bool
    ensures exact { result ≡ is_bind request.now }
{
    match request {
        Request::Bind(_) => true,
        Request::Unbind | Request::Search(_) | Request::Update(_) | Request::Compare(_) => false,
        Request::Abandon(_) | Request::Extended(_, _) => false,
    }
}

// Whether the request, of the connection's own or of another's, may change what a place shows.
fn is_due_asked(own: bool, request: &Request) -> bool
    ensures exact { result ≡ is_due_asked own request.now }
{
    is_change(request) || (own && is_bind(request))
}

/// Whether the message of these octets, of the connection's own or of another's, may change what a place shows: a change of
/// entries (RFC 4511 4.6 to 4.9), or a bind of its own; octets that are no message may not. The error comes where memory is
/// wanted.
pub fn is_due(alloc: Global, own: bool, octets: &[u8]) -> Result<bool, NoMemory>
    ensures ok { IfOk result (λ due. due ≡ is_due own octets.now) }
{
    match read_request(alloc, octets) {
        Ok(message) => Ok(is_due_asked(own, &message.request)),
        Err(ReadFault::NoMemory) => Err(AllocError),
        Err(ReadFault::BadMessage) => Ok(false),
    }
}
