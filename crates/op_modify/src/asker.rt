//! What is asked of one entry.

ghost use Rattle.dir_tree.specs.tree.Numbered.{entries_of};
ghost use Rattle.op_modify.specs.Modifying.{asker_of};

use acdf_filters::Item;
use acdf_filters::aci_item::Permission;
use dir_tree::Entry;
use dir_tree::dn_names::Value;
use dir_tree::schema_tables::AttrId;
use entry_changes::EntryAsker;
use op_add_delete::directory::{Dir, Target};

/// Who asks of a target, as changes of an entry ask.
#[derive(Drop)]
pub(crate) struct TargetAsker<'a, 'b, 'c, D: Dir> {
    pub(crate) target: &'c Target<'a, 'b, D>,
}

impl<'a, 'b, 'c, D: Dir> EntryAsker for TargetAsker<'a, 'b, 'c, D> {
    ghost asker = { λ asker. asker_of (entries_of (D.rows asker.target.now.asking.now.dir.now))
        asker.target.now.asking.now.who.now asker.target.now.entry.now };

    fn allows(&self, item: Item<'_>, permission: Permission) -> bool {
        self.target.allows(item, permission)
    }

    fn adds(&self, after: &Entry, kind: AttrId, value: &Value) -> bool {
        self.target.adds(after, kind, value)
    }
}
