//! The entry that a bind names.

ghost use Rattle.std.specs.Prelude.{◌≡◌};
ghost use Rattle.std.specs.Option.{option_map};
ghost use Rattle.dir_tree.specs.tree.Trees.{named_in};
ghost use Rattle.dir_tree.specs.tree.Numbered.{entries_of};
ghost use Rattle.op_bind.specs.Binds.{has_password};

use crate::passwords::accepts;
use dir_tree::dn_names::Dn;
use dir_tree::schema_tables::AttrId;
use dir_tree::{Entry, Tree};

/// The entry of the name.
pub(crate) fn entry_named<'a>(tree: &'a Tree, name: &Dn) -> Option<&'a Entry>
    ensures exact { option_map (λ entry. entry.now) result ≡ named_in name.now (entries_of tree.now) }
{
    tree.entries_form_a_tree();
    match tree.find(name) {
        Some(number) => tree.at(number),
        None => None,
    }
}

/// Whether a value of the entry's userPassword accepts the password.
pub(crate) fn has_password(entry: &Entry, password: &[u8]) -> bool
    ensures exact { result ≡ has_password password.now entry.now }
{
    entry
        .values(AttrId::USER_PASSWORD)
        .iter()
        .any(|value| accepts(value.octets(), password))
}
