//! Entries that are to take the places of others.

ghost use Rattle.std.specs.Prelude.{OnOk};
ghost use Rattle.dir_tree.specs.Effects.{Replaces};
ghost use Rattle.aci_index.specs.Steps.{KeepsName};

use dir_tree::{Entry, EntryNo, ReplaceRefusal, Tree, TreeReader};

/// An entry that is to take the place of that of the number.
#[derive(Drop)]
pub(crate) struct Successor {
    pub(crate) number: EntryNo,
    pub(crate) entry: Entry,
    /// Whether the entry is known to keep the name of the other: no name is looked at then.
    pub(crate) keeps_name: bool,
}

/// Gives the other's place to the entry.
pub(crate) fn put_successor(tree: &mut Tree, successor: Successor) -> Result<Entry, ReplaceRefusal>
    requires named { KeepsName successor tree.old }
    ensures exact { Replaces successor.number.0 successor.entry tree.old result tree.new }
{
    if !successor.keeps_name {
        return tree.replace(successor.number, successor.entry);
    }
    match tree.revise(successor.number, successor.entry) {
        Ok(old) => Ok(old),
        Err(_) => Err(ReplaceRefusal::NoMemory),
    }
}

/// Gives the other's place to the entry, and lets the reader read the tree as it then is.
pub(crate) fn put_successor_read<R: TreeReader>(
    tree: &mut Tree,
    successor: Successor,
    reader: &mut R,
) -> Result<Entry, ReplaceRefusal>
    requires named { KeepsName successor tree.old }
    ensures exact { Replaces successor.number.0 successor.entry tree.old result tree.new }
    ensures read { OnOk result (R.has_read reader.old reader.new tree.new) }
{
    if !successor.keeps_name {
        return tree.replace_read(successor.number, successor.entry, reader);
    }
    match tree.revise_read(successor.number, successor.entry, reader) {
        Ok(old) => Ok(old),
        Err(_) => Err(ReplaceRefusal::NoMemory),
    }
}
