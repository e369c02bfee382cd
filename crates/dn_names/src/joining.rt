//! Names cut and joined.

ghost use Rattle.std.specs.Prelude.{◌≡◌, ◌++◌, ◌+◌, ◌<◌, ◌≤◌, ◌↔◌, ◌⊎◌, IsTrue, Err, length, drop, IfOk, IfErr};
ghost use Rattle.dn_names.specs.declared.error.BadName.TheVariants.{TooMany, NoMemory};
ghost use Rattle.dn_names.specs.Limits.{most_rdns};
ghost use Rattle.dn_names.specs.name.Names.{rdns_of};
ghost use Rattle.dn_names.specs.NameOrder.{is_prefix_of};

use crate::error::BadName;
use crate::limits::MOST_RDNS;
use crate::name::{Dn, Rdn, append_rdns, copy_rdns};
use std::alloc::{AllocError, Global};

/// What stands below `superior` in `below`: the RDNs of `below` after those of `superior`, which is a prefix of
/// it. The error comes where memory is refused.
pub fn local(alloc: Global, superior: &Dn, below: &Dn) -> Result<Dn, AllocError>
    requires { IsTrue (is_prefix_of superior.now below.now) }
    ensures ok { IfOk result (λ name. name ≡ drop (length superior.now) below.now) }
{
    copy_from(alloc, below, superior.len())
}

// The RDNs from the one of this number on.
fn copy_from(alloc: Global, name: &Dn, first: usize) -> Result<Dn, AllocError>
    ensures ok { IfOk result (λ copy. copy ≡ drop first name.now) }
{
    Dn::from_rdns(alloc, rdns_from(alloc, &name.rdns, first)?)
}

// The same of the RDNs of a name.
fn rdns_from(alloc: Global, rdns: &[Rdn], first: usize) -> Result<Vec<Rdn>, AllocError>
    ensures ok { IfOk result (λ copies. rdns_of copies.items ≡ drop first (rdns_of rdns.now)) }
{
    let (_, rdns) = rdns.split_at(first.min(rdns.len()));
    copy_rdns(alloc, rdns)
}

/// The RDNs of `superior` and then those of `below`. `TooMany` comes exactly where they are more than 64,
/// `NoMemory` where memory is refused.
pub fn join(alloc: Global, superior: &Dn, below: &Dn) -> Result<Dn, BadName>
    ensures ok { IfOk result (λ name. name ≡ superior.now ++ below.now) }
    ensures too_many { (result ≡ Err TooMany) ↔ (most_rdns < length superior.now + length below.now) }
    ensures only { IfErr result (λ error. (error ≡ TooMany) ⊎ (error ≡ NoMemory)) }
{
    if is_too_long(superior, below) {
        return Err(BadName::TooMany);
    }
    match join_rdns(alloc, superior, below) {
        Ok(name) => Ok(name),
        Err(_) => Err(BadName::NoMemory),
    }
}

fn is_too_long(superior: &Dn, below: &Dn) -> bool
    ensures exact { IsTrue result ↔ (most_rdns < length superior.now + length below.now) }
{
    below.len() > MOST_RDNS || superior.len() > MOST_RDNS - below.len()
}

fn join_rdns(alloc: Global, superior: &Dn, below: &Dn) -> Result<Dn, AllocError>
    requires { length superior.now + length below.now ≤ most_rdns }
    ensures ok { IfOk result (λ name. name ≡ superior.now ++ below.now) }
{
    let mut rdns = copy_rdns(alloc, &superior.rdns)?;
    append_rdns(&mut rdns, &below.rdns)?;
    Dn::from_rdns(alloc, rdns)
}
