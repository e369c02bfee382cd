//! The names of requests, and their entries.

ghost use Rattle.std.specs.Prelude.{◌≡◌, ◌≢◌, [], Ok, IfOk};
ghost use Rattle.dir_tree.specs.plain_values.Answers.{Answers};
ghost use Rattle.dir_tree.specs.tree.Trees.{named_in};
ghost use Rattle.dir_tree.specs.tree.Numbered.{entry_of, entries_of};
ghost use Rattle.op_add_delete.specs.reading.Reading.{cause_of};
ghost use Rattle.change_replay.specs.Applied.{named, name_in, target_by, taken_refusal};

use change_records::ldap_msg::ResultCode;
use dir_tree::Tree;
use dir_tree::dn_names::Dn;
use op_add_delete::Fault;
use op_add_delete::directory::{NumberedEntry, find_entry, read_named};
use std::alloc::Global;

// The name, unless it is the empty one.
fn filled(name: Dn) -> Result<Dn, Fault>
    ensures exact { Answers (λ name. name) cause_of result (named (Ok name)) }
    ensures filled { IfOk result (λ name. name ≢ []) }
{
    if name.len() == 0 {
        return Err(Fault::Refused(ResultCode::UnwillingToPerform));
    }
    Ok(name)
}

/// The name of an entry that the octets say.
pub(crate) fn name_in(alloc: Global, octets: &[u8]) -> Result<Dn, Fault>
    ensures exact { Answers (λ name. name) cause_of result (name_in octets.now) }
    ensures filled { IfOk result (λ name. name ≢ []) }
{
    match read_named(alloc, octets)? {
        Some(name) => filled(name),
        None => Err(Fault::Refused(ResultCode::InvalidDnSyntax)),
    }
}

/// The entry of the name.
pub(crate) fn target_in<'a>(tree: &'a Tree, name: &Dn) -> Result<NumberedEntry<'a>, Fault>
    ensures exact { Answers (λ target. target.entry.now) cause_of result
        (target_by (named_in name.now (entries_of tree.now))) }
    ensures numbered { IfOk result (λ target. entry_of target.number.0 tree.now ≡ Some target.entry.now) }
{
    match find_entry(tree, name) {
        Some(target) => Ok(target),
        None => Err(Fault::Refused(ResultCode::NoSuchObject)),
    }
}
