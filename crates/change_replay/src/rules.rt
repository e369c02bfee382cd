//! The rules of entries, and names that are taken.

ghost use Rattle.std.specs.Prelude.{◌≡◌, Some, None, IfOk};
ghost use Rattle.dir_tree.specs.tree.Trees.{named_in, taken_out};
ghost use Rattle.dir_tree.specs.tree.Numbered.{entry_of, entries_of};
ghost use Rattle.acdf_filters.specs.aci_item.Rules.{broken_rule};
ghost use Rattle.change_replay.specs.Applied.{rule_refusal, taken_refusal};

use change_records::ldap_msg::ResultCode;
use dir_tree::dn_names::Dn;
use dir_tree::{Entry, NoMemory, Tree};
use op_add_delete::directory::{NumberedEntry, find_entry};
use op_add_delete::rule_code;
use op_add_delete::schema_rules::{Broken, check_entry};
use std::alloc::{AllocError, Global};

/// The refusal where an entry has the name.
pub(crate) fn taken_refusal(tree: &Tree, name: &Dn) -> Option<ResultCode>
    ensures exact { result ≡ taken_refusal (named_in name.now (entries_of tree.now)) }
{
    match find_entry(tree, name) {
        Some(_) => Some(ResultCode::EntryAlreadyExists),
        None => None,
    }
}

/// The refusal where the entry would break a rule as a new one. The error comes where memory is wanted.
pub(crate) fn broken_as_new(
    alloc: Global,
    tree: &Tree,
    entry: &Entry,
) -> Result<Option<ResultCode>, NoMemory>
    ensures ok { IfOk result (λ refusal. refusal ≡ rule_refusal (broken_rule None (entries_of tree.now) entry.now)) }
{
    match check_entry(alloc, tree, None, entry) {
        Ok(()) => Ok(None),
        Err(Broken::Rule(rule)) => Ok(Some(rule_code(rule))),
        Err(Broken::NoMemory) => Err(AllocError),
    }
}

/// The refusal where the entry would break a rule in the target's place. The error comes where memory is wanted.
pub(crate) fn broken_in_place(
    alloc: Global,
    tree: &Tree,
    target: NumberedEntry<'_>,
    entry: &Entry,
) -> Result<Option<ResultCode>, NoMemory>
    requires found { entry_of target.number.0 tree.now ≡ Some target.entry.now }
    ensures ok { IfOk result (λ refusal. refusal ≡ rule_refusal (broken_rule (Some target.entry.entry.now)
        (taken_out target.entry.entry.now.name (entries_of tree.now)) entry.now)) }
{
    tree.entries_form_a_tree();
    match check_entry(alloc, tree, Some(target.number), entry) {
        Ok(()) => Ok(None),
        Err(Broken::Rule(rule)) => Ok(Some(rule_code(rule))),
        Err(Broken::NoMemory) => Err(AllocError),
    }
}
