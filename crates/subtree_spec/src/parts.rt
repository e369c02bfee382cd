//! The parts of texts: names and object identifiers.

ghost use Rattle.std.specs.Prelude.{◌≡◌, [], IfOk};
ghost use Rattle.gser_tree.specs.Tree.{shape_of};
ghost use Rattle.gser_tree.specs.Reading.{Reads};
ghost use Rattle.subtree_spec.specs.Parts.{name, name_of, is_oid, oid};

use dn_names::{BadName, Dn, parse};
use gser_tree::{Bad, Part, Stop, Tree};
use schema_tables::{is_dotted_oid, is_keystring};
use std::alloc::{AllocError, Global};

/// The name of no RDN.
pub(crate) fn no_name(alloc: Global) -> Result<Dn, AllocError>
    ensures ok { IfOk result (λ name. name ≡ []) }
{
    match parse(alloc, &[]) {
        Ok(name) => Ok(name),
        Err(_) => Err(AllocError),
    }
}

// The name of a text; None where it is no name.
#[tactic(auto, unfolding(crate::specs::Parts::name_of))]
fn name_of(alloc: Global, text: &str) -> Result<Option<Dn>, AllocError>
    ensures ok { IfOk result (λ found. found ≡ name_of text.now) }
{
    match parse(alloc, text.as_bytes()) {
        Ok(name) => Ok(Some(name)),
        Err(BadName::NoMemory) => Err(AllocError),
        Err(BadName::Text { place: _ }) => Ok(None),
        Err(BadName::Part { index: _ }) => Ok(None),
        Err(BadName::TooMany) => Ok(None),
    }
}

/// The name that a string has; where it has none its place is bad, and the name of no RDN stands for it.
#[tactic(auto, unfolding(crate::specs::Parts::name))]
pub fn name(alloc: Global, tree: &Tree, bad: &mut Bad) -> Result<Dn, Stop>
    ensures read { Reads (λ name. name) result bad.new.first (name (shape_of tree.now) bad.old.first) }
{
    let string = tree.string().ok_or(Stop::Misfit)?;
    match name_of(alloc, string.text.as_str())? {
        Some(name) => Ok(name),
        None => {
            bad.note(string.place);
            Ok(no_name(alloc)?)
        }
    }
}

/// Whether a text is a dotted object identifier or a descriptor (RFC 3641 section 3.5).
pub fn is_oid(text: &str) -> bool
    ensures exact { result ≡ is_oid text.now }
{
    is_dotted_oid(text.as_bytes()) || is_keystring(text.as_bytes())
}

/// A word that is a descriptor or a dotted object identifier.
#[tactic(auto, unfolding(crate::specs::Parts::oid))]
pub fn oid<'a>(tree: &'a Tree, bad: &Bad) -> Result<&'a Part, Stop>
    ensures read { Reads (λ part. part.now) result bad.now.first (oid (shape_of tree.now) bad.now.first) }
{
    let word = tree.word().ok_or(Stop::Misfit)?;
    if is_oid(word.text.as_str()) {
        Ok(word)
    } else {
        Err(Stop::Misfit)
    }
}
