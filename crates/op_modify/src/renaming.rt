//! Rename requests, read.

ghost use Rattle.std.specs.Prelude.{◌≡◌, Some, IfOk};
ghost use Rattle.std.specs.Result.{result_ok};
ghost use Rattle.dir_tree.specs.dn_names.NameOrder.{is_same};
ghost use Rattle.dir_tree.specs.dn_names.parsing.NameText.{read_rdn};
ghost use Rattle.dir_tree.specs.tree.Trees.{superior_name};
ghost use Rattle.op_modify.specs.ReadRenames.{with_room, read_superior, new_superior, read_renaming, moves, changes_rdn, asks_rename};

use dir_tree::NoMemory;
use dir_tree::dn_names::{BadName, Dn, MOST_RDNS, compare_front, parse_rdn};
use entry_changes::is_same_rdn;
use ldap_msg::RenameRequest;
use ldap_msg::plain_values::Octets;
use op_add_delete::directory::read_named;
use std::alloc::{AllocError, Global};

/// A rename request, read (RFC 4511 4.9).
#[derive(Drop)]
pub struct Renaming {
    /// The name of the entry.
    pub name: Dn,
    /// The new RDN, as a name of one.
    pub rdn: Dn,
    /// Whether values of the old RDN go.
    pub delete_old: bool,
    /// The new superior's name, if one is given that is not the present one.
    pub superior: Option<Dn>,
}

// The RDN that the octets say, as a name of one; None where they say none. The error comes where memory is wanted.
fn read_rdn(alloc: Global, octets: &[u8]) -> Result<Option<Dn>, NoMemory>
    ensures ok { IfOk result (λ rdn. rdn ≡ result_ok (read_rdn octets.now)) }
{
    match parse_rdn(alloc, octets) {
        Ok(rdn) => Ok(Some(rdn)),
        Err(BadName::NoMemory) => Err(AllocError),
        Err(BadName::Text { .. }) => Ok(None),
        Err(BadName::Part { .. }) => Ok(None),
        Err(BadName::TooMany) => Ok(None),
    }
}

// The name, if another may stand below it.
fn with_room(name: Dn) -> Option<Dn>
    ensures exact { result ≡ with_room name }
{
    if name.len() < MOST_RDNS {
        Some(name)
    } else {
        None
    }
}

// The superior that is given, if one is; None where it is no name, or none below which another may stand.
fn read_superior(alloc: Global, given: &Option<Octets>) -> Result<Option<Option<Dn>>, NoMemory>
    ensures ok { IfOk result (λ superior. superior ≡ read_superior given.now) }
{
    let Some(octets) = given else {
        return Ok(Some(None));
    };
    let Some(name) = read_named(alloc, octets.as_slice())? else {
        return Ok(None);
    };
    match with_room(name) {
        Some(superior) => Ok(Some(Some(superior))),
        None => Ok(None),
    }
}

// Whether the superior is the name's own.
fn is_present(name: &Dn, superior: &Dn) -> bool
    ensures exact { result ≡ is_same (superior_name name.now) superior.now }
{
    compare_front(name, name.len().saturating_sub(1), superior).is_eq()
}

// The superior that is given, unless it is the name's own.
fn new_superior(name: &Dn, given: Option<Dn>) -> Option<Dn>
    ensures exact { result ≡ new_superior name.now given }
{
    let Some(superior) = given else {
        return None;
    };
    if is_present(name, &superior) {
        None
    } else {
        Some(superior)
    }
}

/// The request, read; None where a name or the new RDN is none. The error comes where memory is wanted.
#[tactic(auto, unfolding(crate::specs::ReadRenames::read_renaming))]
pub fn read_renaming(alloc: Global, request: &RenameRequest) -> Result<Option<Renaming>, NoMemory>
    ensures ok { IfOk result (λ renaming. renaming ≡ read_renaming request.now) }
{
    let Some(name) = read_named(alloc, request.name.as_slice())? else {
        return Ok(None);
    };
    let Some(rdn) = read_rdn(alloc, request.new_rdn.as_slice())? else {
        return Ok(None);
    };
    let Some(given) = read_superior(alloc, &request.superior)? else {
        return Ok(None);
    };
    let superior = new_superior(&name, given);
    Ok(Some(Renaming {
        name,
        rdn,
        delete_old: request.delete_old,
        superior,
    }))
}

/// Whether another superior than the present one is asked for.
pub(crate) fn moves(renaming: &Renaming) -> bool
    ensures exact { result ≡ moves renaming.now }
{
    renaming.superior.is_some()
}

// Whether the entry gets another RDN.
fn changes_rdn(renaming: &Renaming) -> bool
    ensures exact { result ≡ changes_rdn renaming.now }
{
    !is_same_rdn(renaming.name.last_rdn(), renaming.rdn.last_rdn())
}

/// Whether the entry must be allowed to be renamed: it gets another RDN, or stays where it is.
pub(crate) fn asks_rename(renaming: &Renaming) -> bool
    ensures exact { result ≡ asks_rename renaming.now }
{
    changes_rdn(renaming) || !moves(renaming)
}
