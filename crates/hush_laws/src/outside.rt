//! Whether two trees are the same but for a subtree.

ghost use Rattle.std.specs.Prelude.{◌≡◌, ◌∷◌, [], IfSome, None};
ghost use Rattle.dir_tree.specs.tree.Numbered.{entries_of};
ghost use Rattle.op_read.specs.acdf_filters.admin_scope.Areas.{without_subtree};
ghost use Rattle.hush_laws.specs.Equality.{are_all_equal};

use crate::equality::are_equal_entries;
use crate::rows::Rows;
use dir_tree::dn_names::{Dn, is_prefix};
use dir_tree::{Entry, Tree};

// The next entry that is neither at the name nor below it, if one is left.
fn next_outside<'a>(rows: &mut Rows<'a>, top: &Dn) -> Option<&'a Entry>
    ensures found { IfSome result (λ entry.
        without_subtree top.now rows.old ≡ entry.now ∷ without_subtree top.now rows.new) }
    ensures empty { result ≡ None → without_subtree top.now rows.old ≡ [] }
{
    while let Some(entry) = rows.next() {
        if !is_prefix(top, entry.name()) {
            return Some(entry);
        }
    }
    None
}

/// Whether the entries of two trees that are neither at the name nor below it are the same, octets and keys, in the same
/// order. Each tree is walked over once, up to the first entry that differs; no memory is taken.
pub fn are_same_outside(one: &Tree, other: &Tree, top: &Dn) -> bool
    ensures exact { result ≡ are_all_equal (without_subtree top.now (entries_of one.now))
        (without_subtree top.now (entries_of other.now)) }
{
    let mut ones = Rows::new(one);
    let mut others = Rows::new(other);
    while let Some(entry) = next_outside(&mut ones, top) {
        let Some(second) = next_outside(&mut others, top) else {
            return false;
        };
        if !are_equal_entries(entry, second) {
            return false;
        }
    }
    next_outside(&mut others, top).is_none()
}
