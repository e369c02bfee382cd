//! What a bind comes to.

ghost use Rattle.std.specs.Prelude.{◌≡◌, [], IsOk, IfOk};
ghost use Rattle.dir_tree.specs.dn_names.parsing.NameText.{read_name};
ghost use Rattle.dir_tree.specs.tree.Numbered.{entries_of};
ghost use Rattle.op_bind.specs.Binds.{ended, bound_name, bound_password, bound_entry, bound_nobody, bound_named};
ghost use Rattle.op_bind.specs.Binds.{bound_text, bound_auth, bind_answer, with_password};

use crate::entry::{entry_named, has_password};
use acdf_filters::Requester;
use acdf_filters::aci_item::Level;
use dir_tree::dn_names::{BadName, Dn, parse};
use dir_tree::{Entry, Tree};
use ldap_msg::{Auth, BindRequest, ResultCode};
use std::alloc::{AllocError, Global};

/// The one error: there was no memory.
pub type NoMemory = AllocError;

/// What a bind comes to: its result code, and who asks from then on.
#[derive(Drop)]
pub struct Bound {
    pub code: ResultCode,
    pub who: Requester,
}

// A bind that leaves the requester anonymous.
fn ended(code: ResultCode) -> Bound
    ensures exact { result ≡ ended code }
{
    Bound {
        code,
        who: Requester {
            name: None,
            level: Level::Anyone,
        },
    }
}

// A bind as the entry of this name.
fn bind_as(alloc: Global, name: &Dn) -> Result<Bound, NoMemory>
    ensures ok { IfOk result (λ bound. bound ≡ bound_name name.now) }
{
    let name = name.copy(alloc)?;
    Ok(Bound {
        code: ResultCode::Success,
        who: Requester {
            name: Some(name),
            level: Level::Simple,
        },
    })
}

// A bind with a password as the entry.
fn bind_entry(alloc: Global, entry: &Entry, password: &[u8]) -> Result<Bound, NoMemory>
    ensures ok { IfOk result (λ bound. bound ≡ bound_password password.now entry.now) }
{
    if has_password(entry, password) {
        bind_as(alloc, entry.name())
    } else {
        Ok(ended(ResultCode::InvalidCredentials))
    }
}

// A bind with a password as the entry of the name.
fn bind_existing(alloc: Global, tree: &Tree, name: &Dn, password: &[u8]) -> Result<Bound, NoMemory>
    ensures ok { IfOk result (λ bound. bound ≡ bound_entry (entries_of tree.now) name.now password.now) }
{
    match entry_named(tree, name) {
        Some(entry) => bind_entry(alloc, entry, password),
        None => Ok(ended(ResultCode::InvalidCredentials)),
    }
}

// A bind with the empty name.
fn bind_nobody(password: &[u8]) -> Bound
    ensures exact { result ≡ bound_nobody password.now }
{
    if password.is_empty() {
        ended(ResultCode::Success)
    } else {
        ended(ResultCode::InvalidCredentials)
    }
}

// A bind with a name and a password.
fn bind_named(alloc: Global, tree: &Tree, name: &Dn, password: &[u8]) -> Result<Bound, NoMemory>
    ensures ok { IfOk result (λ bound. bound ≡ bound_named (entries_of tree.now) name.now password.now) }
{
    if name.len() == 0 {
        Ok(bind_nobody(password))
    } else if password.is_empty() {
        Ok(ended(ResultCode::UnwillingToPerform))
    } else {
        bind_existing(alloc, tree, name, password)
    }
}

// A bind with a name's text and a password. Without a name it takes no memory.
fn bind_simple(alloc: Global, tree: &Tree, name: &[u8], password: &[u8]) -> Result<Bound, NoMemory>
    ensures ok { IfOk result (λ bound.
        bound ≡ bound_text (entries_of tree.now) (read_name name.now) password.now) }
    ensures succeeds { name.now ≡ [] → IsOk result }
{
    if name.is_empty() {
        return Ok(bind_nobody(password));
    }
    match parse(alloc, name) {
        Ok(name) => bind_named(alloc, tree, &name, password),
        Err(BadName::NoMemory) => Err(AllocError),
        Err(BadName::Text { place: _ } | BadName::Part { index: _ } | BadName::TooMany) => {
            Ok(ended(ResultCode::InvalidDnSyntax))
        }
    }
}

// A bind with a name's text, by a password or by another method.
fn bind_by(alloc: Global, tree: &Tree, name: &[u8], auth: &Auth) -> Result<Bound, NoMemory>
    ensures ok { IfOk result (λ bound. bound ≡ bound_auth (entries_of tree.now) name.now auth.now) }
{
    match auth {
        Auth::Other(_) => Ok(ended(ResultCode::AuthMethodNotSupported)),
        Auth::Simple(password) => bind_simple(alloc, tree, name, password.as_slice()),
    }
}

/// What a bind comes to over the tree (RFC 4511 4.2.2), by the first that applies: protocolError for a
/// version other than 3, authMethodNotSupported for authentication other than simple, invalidDNSyntax for a
/// name that is none, success for no name and no password, invalidCredentials for a password alone,
/// unwillingToPerform for a name alone (RFC 4513 5.1.2), invalidCredentials where no entry has the name or
/// none of its passwords accepts the password, and otherwise success. After the last the requester has the
/// entry's name, as the tree spells it, and is authenticated simply; after any other it is anonymous. A
/// bind asks for no permission. The error comes for want of memory alone.
#[tactic(auto, unfolding(crate::specs::Binds::bind_answer))]
pub fn bind(alloc: Global, tree: &Tree, request: &BindRequest) -> Result<Bound, NoMemory>
    ensures ok { IfOk result (λ bound. bound ≡ bind_answer (entries_of tree.now) request.now) }
{
    if request.version == 3 {
        bind_by(alloc, tree, request.name.as_slice(), &request.auth)
    } else {
        Ok(ended(ResultCode::ProtocolError))
    }
}

/// The same for a bind of version 3 with a password, whose name and password are lent. Without a name it takes no memory.
#[tactic(auto, unfolding(crate::specs::Binds::bind_answer))]
pub fn bind_with_password(
    alloc: Global,
    tree: &Tree,
    name: &[u8],
    password: &[u8],
) -> Result<Bound, NoMemory>
    ensures ok { IfOk result (λ bound. bound ≡ bind_answer (entries_of tree.now) (with_password name.now password.now)) }
    ensures succeeds { name.now ≡ [] → IsOk result }
{
    bind_simple(alloc, tree, name, password)
}
