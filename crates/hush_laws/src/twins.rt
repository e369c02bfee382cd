//! Whether a directory is a twin of another for a requester.

ghost use Rattle.std.specs.Prelude.{◌≡◌, ◌||◌, IfOk};
ghost use Rattle.dir_tree.specs.tree.Numbered.{entries_of};
ghost use Rattle.op_read.specs.read_model.Views.{view_of};
ghost use Rattle.op_read.specs.twin_laws.Twins.{shows_within as is_any_shown};
ghost use Rattle.hush_laws.specs.TwinParts.{IsBeginning, governs_within, failing_twins};

use crate::groups::lists_group_outside;
use crate::outside::are_same_outside;
use crate::part::Part;
use crate::within::{governs_within, shows_within};
use dir_tree::dn_names::Dn;
use dir_tree::{NoMemory, Tree};
use op_read::acdf_filters::Requester;
use op_read::directory::Dir;
use std::alloc::Global;

/// What of the tree at the beginning counts whatever the tree is later and whoever asks.
#[derive(Clone, Copy, Debug)]
pub struct Beginning {
    /// Whether an entry at or below the name is a subentry or has an administrative role.
    pub governs: bool,
    /// Whether an access control item of another entry names a group at or below it.
    pub lists_group: bool,
}

impl Beginning {
    /// What counts of the tree; the error comes where memory is wanted.
    pub fn new(alloc: Global, tree: &Tree, top: &Dn) -> Result<Beginning, NoMemory>
        ensures ok { IfOk result (λ begun.
            IsBeginning top.now (entries_of tree.now) begun.governs begun.lists_group) }
    {
        Ok(Beginning {
            governs: governs_within(tree, top),
            lists_group: lists_group_outside(alloc, tree, top)?,
        })
    }
}

// Whether an entry at or below the name governs, in the tree at the beginning or in that of now.
fn governs_in_either(begun: Beginning, now: &Tree, top: &Dn) -> bool
    ensures exact { result ≡ (begun.governs || governs_within top.now (entries_of now.now)) }
{
    begun.governs || governs_within(now, top)
}

// Whether one is shown to the requester, in one directory or the other.
fn shows_in_either<D: Dir, E: Dir>(
    alloc: Global,
    before: &D,
    now: &E,
    top: &Dn,
    who: &Requester,
) -> Result<bool, NoMemory>
    ensures ok { IfOk result (λ shows. shows
        ≡ (is_any_shown top.now (view_of (entries_of (D.rows before.now)) who.now)
        || is_any_shown top.now (view_of (entries_of (E.rows now.now)) who.now))) }
{
    if shows_within(alloc, before, top, who)? {
        return Ok(true);
    }
    shows_within(alloc, now, top, who)
}

/// The first part of being twins that fails of the directory at the beginning and the directory now, for the requester;
/// None exactly where none fails. The entries of both are walked over once, and what was found of the beginning isn't
/// looked for again. The error comes where memory is wanted.
pub fn failing_twins<D: Dir, E: Dir>(
    alloc: Global,
    before: &D,
    begun: Beginning,
    now: &E,
    top: &Dn,
    who: &Requester,
) -> Result<Option<Part>, NoMemory>
    requires { IsBeginning top.now (entries_of (D.rows before.now)) begun.governs begun.lists_group }
    ensures ok { IfOk result (λ part. part
        ≡ failing_twins top.now (entries_of (D.rows before.now)) (entries_of (E.rows now.now)) who.now) }
{
    if !are_same_outside(before.tree(), now.tree(), top) {
        return Ok(Some(Part::Others));
    }
    if governs_in_either(begun, now.tree(), top) {
        return Ok(Some(Part::Governs));
    }
    if shows_in_either(alloc, before, now, top, who)? {
        return Ok(Some(Part::Shown));
    }
    if begun.lists_group {
        return Ok(Some(Part::Groups));
    }
    Ok(None)
}
