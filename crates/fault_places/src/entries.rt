//! Why an entry may not join those before it.

ghost use Rattle.std.specs.Prelude.{◌≡◌, ◌++◌, [], OnOk, option_map, string_bytes};
ghost use Rattle.dir_tree.specs.tree.Numbered.{entries_of};
ghost use Rattle.dir_tree.specs.tree.Trees.{named_in, superior_name};
ghost use Rattle.fault_places.specs.EntryFaults.{place_words, misplaced_said, rule_said, entry_fault};

use crate::classes::{put_classes, put_values};
use crate::saying::{NoMemory, put_said};
use crate::values::put_unread;
use aci_item::EntryRule;
use dir_tree::{Entry, Tree};
use ldif_load::LoadCause;
use ldif_records::Record;
use std::alloc::Global;

// The entry above that of the name.
fn entry_above<'a>(tree: &'a Tree, entry: &Entry) -> Option<&'a Entry>
    ensures exact { option_map (λ entry. entry.now) result ≡ named_in (superior_name entry.now.name) (entries_of tree.now) }
{
    tree.entries_form_a_tree();
    let name = entry.name();
    match tree.find_prefix(name, name.len().saturating_sub(1)) {
        Some(number) => tree.at(number),
        None => None,
    }
}

// What is said of an entry with this superior that stands where it may not.
fn place_words(superior: Option<&Entry>) -> &'static str
    ensures exact { result.now ≡ place_words (option_map (λ entry. entry.now) superior.entry) }
{
    match superior {
        Some(superior) => {
            if superior.is_subentry() {
                "no entry may stand below a subentry\n"
            } else {
                "the entry above this subentry is no administrative point (administrativeRole)\n"
            }
        }
        None => "a subentry has an administrative point above it\n",
    }
}

// Writes why an entry stands where it may not.
fn put_misplaced(tree: &Tree, line: u64, entry: &Entry, out: &mut String) -> Result<(), NoMemory>
    ensures ok { OnOk result (string_bytes out.new
        ≡ string_bytes out.old ++ misplaced_said (entries_of tree.now) line entry.now) }
{
    put_said(line, place_words(entry_above(tree, entry)), out)
}

// Writes how an entry breaks the rule, and where.
fn put_rule(
    alloc: Global,
    tree: &Tree,
    given: &Record,
    entry: &Entry,
    rule: EntryRule,
    out: &mut String,
) -> Result<(), NoMemory>
    ensures ok { OnOk result (string_bytes out.new
        ≡ string_bytes out.old ++ rule_said (entries_of tree.now) given.now entry.now rule) }
{
    match rule {
        EntryRule::Classes => put_classes(given, entry, out),
        EntryRule::Syntaxes => put_unread(alloc, given.lines.as_slice(), out),
        EntryRule::SingleValues => put_values(given, entry, out),
        EntryRule::Place => put_misplaced(tree, given.line, entry, out),
        EntryRule::RdnValues | EntryRule::StructuralClass | EntryRule::Limits => Ok(()),
    }
}

/// Writes why an entry may not join those before it, for the cause.
pub(crate) fn put_entry_fault(
    alloc: Global,
    tree: &Tree,
    given: &Record,
    entry: &Entry,
    cause: LoadCause,
    out: &mut String,
) -> Result<(), NoMemory>
    ensures ok { OnOk result (string_bytes out.new
        ≡ string_bytes out.old ++ entry_fault (entries_of tree.now) given.now entry.now cause) }
{
    match cause {
        LoadCause::Twice => put_said(given.line, "a record before it has the name\n", out),
        LoadCause::Order => put_said(
            given.line,
            "no record before it is the entry above it\n",
            out,
        ),
        LoadCause::Limit => put_said(
            given.line,
            "there are 200000 entries or 256 access control subentries already, or the values have more than 67108864 octets\n",
            out,
        ),
        LoadCause::Rule(rule) => put_rule(alloc, tree, given, entry, rule, out),
        LoadCause::Name | LoadCause::Kind | LoadCause::Value => Ok(()),
    }
}
