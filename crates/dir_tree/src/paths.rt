//! Names found by their path keys.

ghost use Rattle.std.specs.Prelude.{◌≡◌, IfOk};
ghost use Rattle.std.specs.Option.{option_map};
ghost use Rattle.dn_names.specs.name.Names.{RdnSequence};
ghost use Rattle.dn_names.specs.path.PathKeys.{path_key};
ghost use Rattle.dir_tree.specs.tree.Trees.{superior_name};
ghost use Rattle.dir_tree.specs.Maps.{HasSamePlaces};

use crate::number::EntryNo;
use crate::tree::Tree;
use dn_names::Dn;
use std::alloc::AllocError;
use std::collections::BTreeMap;

impl Tree {
    ghost use Rattle.dir_tree.specs.tree.Numbered.{find_name};

    /// The number of the entry whose name has the path key.
    pub(crate) fn number_of(&self, path: &[u8]) -> Option<EntryNo>
        ensures exact { (name : RdnSequence) → path.now ≡ path_key name
            → option_map (λ no. no.0) result ≡ find_name name self.now }
    {
        match self.places.get(path) {
            Some(no) => Some(EntryNo(*no)),
            None => None,
        }
    }

    /// The number of the entry that the name without its last RDN names.
    pub(crate) fn number_above(&self, name: &Dn) -> Option<EntryNo>
        ensures exact { option_map (λ no. no.0) result ≡ find_name (superior_name name.now) self.now }
    {
        self.number_of(superior_path(name))
    }
}

/// The path key of the name without its last RDN.
pub(crate) fn superior_path(name: &Dn) -> &[u8]
    ensures exact { result.now ≡ path_key (superior_name name.now) }
{
    match name.path_to(name.len().saturating_sub(1)) {
        Some(path) => path,
        None => unreachable!(),
    }
}

/// The path key of the name, in memory of its own.
pub(crate) fn copy_path(name: &Dn) -> Result<Vec<u8>, AllocError>
    ensures ok { IfOk result (λ path. path.items ≡ path_key name.now) }
{
    let path = name.path();
    path.as_slice().to_vec(*path.allocator())
}

/// The numbers by path keys, in memory of their own.
pub(crate) fn copy_places(
    places: &BTreeMap<Vec<u8>, u32>,
) -> Result<BTreeMap<Vec<u8>, u32>, AllocError>
    ensures ok { IfOk result (λ copy.
        HasSamePlaces (λ key. key.items) places.now.entries copy.entries) }
{
    let copy = places.clone()?;
    Ok(copy)
}
