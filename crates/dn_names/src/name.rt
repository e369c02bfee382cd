//! Names, their RDNs and the pairs of these.

ghost use Rattle.std.specs.Prelude.{◌≡◌, ◌++◌, [], Some, None, IfOk, OnOk, length, take, slice_get, nat_le, if◌then◌else◌};
ghost use Rattle.std.specs.Option.{option_map};
ghost use Rattle.dn_names.specs.name.Names.{last_rdn, rdns_of};
ghost use Rattle.dn_names.specs.name.GoodNames.{IsGoodName};
ghost use Rattle.dn_names.specs.path.PathKeys.{path_key};

use crate::path::{make_path, path_front};
use crate::value::Value;
use plain_values::OneOrMany;
use schema_tables::AttrId;
use std::alloc::{AllocError, Global};
use std::marker::Model;
use std::rc::Rc;

/// A type with a value, as an RDN has them.
#[derive(Debug, Drop)]
pub struct Pair {
    pub(crate) kind: AttrId,
    pub(crate) value: Value,
}

impl Model for Pair {
    ghost use Rattle.std.specs.Str.{is_utf8};
    ghost use Rattle.std.specs.Prelude.{◌≡◌, true};
    ghost use Rattle.dn_names.specs.name.Names.{TypeAndValue};

    ghost Value = { TypeAndValue };

    ghost view = { λ pair. record { kind = pair.kind.0; value = pair.value } };

    ghost invariant = { λ pair. is_utf8 pair.value.octets ≡ true };
}

impl Pair {
    /// The type.
    pub fn kind(&self) -> AttrId
        ensures exact { result.0 ≡ self.now.kind }
    {
        self.kind
    }

    /// The value.
    pub fn value(&self) -> &Value
        ensures exact { result.now ≡ self.now.value }
    {
        &self.value
    }
}

/// The pairs of an RDN, in the order of the table, which names may share.
pub(crate) type Rdn = Rc<OneOrMany<Pair>>;

/// A name: its RDNs, from the root on. It is good as reading makes it: at most 64 RDNs, the pairs of each of distinct
/// types in the order of the table, each value of its type's syntax, with its key, and of at most 65,536 octets.
#[derive(Debug, Drop)]
pub struct Dn {
    pub(crate) rdns: Vec<Rdn>,
    pub(crate) path: Vec<u8>,
}

impl Model for Dn {
    ghost use Rattle.dn_names.specs.name.Names.{RdnSequence, rdns_of};
    ghost use Rattle.dn_names.specs.path.PathKeys.{IsKept};

    ghost Value = { RdnSequence };

    ghost view = { λ name. rdns_of name.rdns.items };

    ghost invariant = { λ name. IsKept (rdns_of name.rdns.items) name.path.items };
}

impl Dn {
    /// The name of these RDNs.
    pub(crate) fn from_rdns(alloc: Global, rdns: Vec<Rdn>) -> Result<Dn, AllocError>
        requires good { IsGoodName (rdns_of rdns.items) }
        ensures ok { IfOk result (λ name. name ≡ rdns_of rdns.items) }
    {
        let path = make_path(alloc, &rdns)?;
        Ok(Dn { rdns, path })
    }

    /// The name of no RDN, that of the root.
    pub fn empty(alloc: Global) -> Dn
        ensures exact { result ≡ [] }
    {
        Dn {
            rdns: Vec::new(alloc),
            path: Vec::new(alloc),
        }
    }

    /// Says that the name is good, as each is; it computes nothing.
    pub fn known_good(&self)
        ensures good { IsGoodName self.now }
    {
        let _ = &self.path;
    }

    /// The path key: keys compare by their octets as names do, and one begins another exactly where the name does.
    pub fn path(&self) -> &Vec<u8>
        ensures exact { result.now.items ≡ path_key self.now }
    {
        &self.path
    }

    /// The path key of the first RDNs, `len` of them; None exactly where the name has fewer.
    pub fn path_to(&self, len: usize) -> Option<&[u8]>
        ensures exact { option_map (λ key. key.now) result
            ≡ (if nat_le len (length self.now) then Some (path_key (take len self.now)) else None) }
    {
        if len > self.rdns.len() {
            return None;
        }
        Some(path_front(&self.path, len))
    }

    /// The path key of the first RDNs, `len` of them, or of all where the name has fewer.
    pub(crate) fn front_path(&self, len: usize) -> &[u8]
        ensures exact { result.now ≡ path_key (take len self.now) }
    {
        path_front(&self.path, len.min(self.rdns.len()))
    }

    /// The number of RDNs.
    pub fn len(&self) -> usize
        ensures exact { result ≡ length self.now }
    {
        self.rdns.len()
    }

    /// The RDN of this number, from 0 at the root; None exactly past the last.
    pub fn rdn(&self, index: usize) -> Option<&[Pair]>
        ensures exact { option_map (λ rdn. rdn.now) result ≡ slice_get self.now index }
    {
        self.rdns.get(index).map(|rdn| rdn.as_slice())
    }

    /// The pairs of the last RDN; none where the name is empty.
    pub fn last_rdn(&self) -> &[Pair]
        ensures exact { result.now ≡ last_rdn self.now }
    {
        match self.rdn(self.len().saturating_sub(1)) {
            Some(rdn) => rdn,
            None => &[],
        }
    }

    /// The same name; RDNs are shared. The error comes where memory is refused.
    pub fn copy(&self, alloc: Global) -> Result<Dn, AllocError>
        ensures ok { IfOk result (λ name. name ≡ self.now) }
    {
        Ok(Dn {
            rdns: copy_rdns(alloc, &self.rdns)?,
            path: self.path.as_slice().to_vec(alloc)?,
        })
    }
}

/// The same RDNs, shared.
pub(crate) fn copy_rdns(alloc: Global, rdns: &[Rdn]) -> Result<Vec<Rdn>, AllocError>
    ensures ok { IfOk result (λ copies. rdns_of copies.items ≡ rdns_of rdns.now) }
{
    let mut copies = Vec::new(alloc);
    append_rdns(&mut copies, rdns)?;
    Ok(copies)
}

/// Puts RDNs, shared, at the end.
pub(crate) fn append_rdns(out: &mut Vec<Rdn>, rdns: &[Rdn]) -> Result<(), AllocError>
    ensures ok { OnOk result (rdns_of out.new.items ≡ rdns_of out.old.items ++ rdns_of rdns.now) }
{
    out.reserve_exact(rdns.len())?;
    for rdn in rdns {
        out.push(rdn.clone()?)?;
    }
    Ok(())
}
