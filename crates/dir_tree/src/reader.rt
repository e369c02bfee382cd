//! What is made of a tree while a change of it can still be undone.

ghost use Rattle.std.specs.Prelude.{OnOk};

use crate::entry::NoMemory;
use crate::tree::Tree;

/// What is made of a tree as a change would leave it.
pub trait TreeReader {
    ghost use Rattle.std.specs.Prelude.{List};
    ghost use Rattle.dir_tree.specs.tree.Numbered.{Numbered};

    // the reader before, and after, and the tree that it read
    ghost has_read: { Self → Self → List Numbered → Type 0 };

    /// Reads the tree. The error comes where memory is wanted.
    fn read(&mut self, tree: &Tree) -> Result<(), NoMemory>
        ensures ok { OnOk result (has_read self.old self.new tree.now) };
}

/// Nothing is made of the tree. Takes no memory.
#[derive(Drop)]
pub(crate) struct Unread;

impl TreeReader for Unread {
    ghost has_read = { λ before reader rows. Unit {0} };

    fn read(&mut self, _tree: &Tree) -> Result<(), NoMemory> {
        Ok(())
    }
}
