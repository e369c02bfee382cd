//! Lines.

ghost use Rattle.std.specs.Prelude.{◌≡◌, ◌++◌, [], OnOk, codes, decimal, flat_map, map, string_bytes};
ghost use Rattle.std.specs.Option.{option_map_or};
ghost use Rattle.dir_tree.specs.dn_names.Printing.{print_name};
ghost use Rattle.dir_tree.specs.tree.Numbered.{entry_of, entries_at};
ghost use Rattle.explanation.specs.Explained.{name_at, kept_at};
ghost use Rattle.explanation.specs.Texts.{subentry_line, count_line, effect, kept_line, outcome_line};

use crate::{Counts, KeptTuple};
use acdf_filters::gser_tree::put_string;
use dir_tree::{Entry, EntryNo, NoMemory, Tree};
use std::alloc::Global;

// Writes the line of a subentry.
fn put_subentry(alloc: Global, subentry: &Entry, out: &mut String) -> Result<(), NoMemory>
    ensures ok { OnOk result (string_bytes out.new ≡ string_bytes out.old ++ subentry_line subentry.now) }
{
    out.push_str("subentry ")?;
    dir_tree::dn_names::print(alloc, subentry.name(), out)?;
    out.push_str("\n")
}

// Writes that of the number, where it is in use.
fn put_subentry_at(
    alloc: Global,
    tree: &Tree,
    number: EntryNo,
    out: &mut String,
) -> Result<(), NoMemory>
    ensures ok { OnOk result (string_bytes out.new
        ≡ string_bytes out.old ++ option_map_or subentry_line (entry_of number.0 tree.now) []) }
{
    match tree.at(number) {
        Some(subentry) => put_subentry(alloc, subentry, out),
        None => Ok(()),
    }
}

/// Writes the lines of the subentries of the numbers.
pub(crate) fn put_subentries(
    alloc: Global,
    tree: &Tree,
    numbers: &[EntryNo],
    out: &mut String,
) -> Result<(), NoMemory>
    ensures ok { OnOk result (string_bytes out.new ≡ string_bytes out.old
        ++ flat_map subentry_line (entries_at tree.now (map (λ no. no.0) numbers.now))) }
{
    for number in numbers {
        put_subentry_at(alloc, tree, *number, out)?;
    }
    Ok(())
}

// Writes the line of a count.
fn put_count(word: &str, count: usize, out: &mut String) -> Result<(), NoMemory>
    ensures ok { OnOk result (string_bytes out.new ≡ string_bytes out.old ++ count_line word.now count) }
{
    write!(out, "{word} {count}\n")
}

// Writes the lines of the counts up to the filter on permissions.
fn put_first_counts(counts: &Counts, out: &mut String) -> Result<(), NoMemory>
    ensures ok { OnOk result (string_bytes out.new ≡ string_bytes out.old
        ++ (count_line (codes "listed") counts.now.listed ++ (count_line (codes "users") counts.now.users
        ++ (count_line (codes "item") counts.now.item ++ count_line (codes "permission") counts.now.permission)))) }
{
    put_count("listed", counts.listed, out)?;
    put_count("users", counts.users, out)?;
    put_count("item", counts.item, out)?;
    put_count("permission", counts.permission, out)
}

// Writes those of the last three filters.
fn put_last_counts(counts: &Counts, out: &mut String) -> Result<(), NoMemory>
    ensures ok { OnOk result (string_bytes out.new ≡ string_bytes out.old
        ++ (count_line (codes "precedence") counts.now.precedence ++ (count_line (codes "class") counts.now.class
        ++ count_line (codes "explicit") counts.now.explicit))) }
{
    put_count("precedence", counts.precedence, out)?;
    put_count("class", counts.class, out)?;
    put_count("explicit", counts.explicit, out)
}

/// Writes the lines of all counts.
pub(crate) fn put_counts(counts: &Counts, out: &mut String) -> Result<(), NoMemory>
    ensures ok { OnOk result (string_bytes out.new ≡ string_bytes out.old
        ++ (count_line (codes "listed") counts.now.listed ++ (count_line (codes "users") counts.now.users
        ++ (count_line (codes "item") counts.now.item ++ (count_line (codes "permission") counts.now.permission
        ++ (count_line (codes "precedence") counts.now.precedence ++ (count_line (codes "class") counts.now.class
        ++ count_line (codes "explicit") counts.now.explicit))))))) }
{
    put_first_counts(counts, out)?;
    put_last_counts(counts, out)
}

// Writes the name of the entry of the number.
fn put_name_at(
    alloc: Global,
    tree: &Tree,
    number: EntryNo,
    out: &mut String,
) -> Result<(), NoMemory>
    ensures ok { OnOk result (string_bytes out.new ≡ string_bytes out.old ++ print_name (name_at tree.now number.0)) }
{
    match tree.at(number) {
        Some(entry) => dir_tree::dn_names::print(alloc, entry.name(), out),
        None => Ok(()),
    }
}

/// The word for what a tuple does: `grant` or `deny`.
pub fn effect(grants: bool) -> &'static str
    ensures exact { result.now ≡ effect grants }
{
    if grants { "grant" } else { "deny" }
}

// Writes the part of the line of a tuple up to its item's tag.
fn put_source(
    alloc: Global,
    tree: &Tree,
    kept: &KeptTuple,
    out: &mut String,
) -> Result<(), NoMemory>
    ensures ok { OnOk result (string_bytes out.new ≡ string_bytes out.old
        ++ (codes "kept " ++ (print_name (name_at tree.now kept.now.source.0) ++ codes " "))) }
{
    out.push_str("kept ")?;
    put_name_at(alloc, tree, kept.source, out)?;
    out.push_str(" ")
}

// Writes the part behind it.
fn put_effect(grants: bool, out: &mut String) -> Result<(), NoMemory>
    ensures ok { OnOk result (string_bytes out.new ≡ string_bytes out.old
        ++ (codes " " ++ (effect grants ++ codes "\n"))) }
{
    out.push_str(" ")?;
    out.push_str(effect(grants))?;
    out.push_str("\n")
}

// Writes the line of a tuple that is left.
fn put_kept(alloc: Global, tree: &Tree, kept: &KeptTuple, out: &mut String) -> Result<(), NoMemory>
    ensures ok { OnOk result (string_bytes out.new ≡ string_bytes out.old ++ kept_line (kept_at tree.now kept.now)) }
{
    put_source(alloc, tree, kept, out)?;
    put_string(out, kept.tag.as_str())?;
    put_effect(kept.grants, out)
}

/// Writes the lines of those that are left.
pub(crate) fn put_all_kept(
    alloc: Global,
    tree: &Tree,
    kept: &[KeptTuple],
    out: &mut String,
) -> Result<(), NoMemory>
    ensures ok { OnOk result (string_bytes out.new
        ≡ string_bytes out.old ++ flat_map kept_line (map (kept_at tree.now) kept.now)) }
{
    for tuple in kept {
        put_kept(alloc, tree, tuple, out)?;
    }
    Ok(())
}

/// The line of what is decided.
pub(crate) fn outcome_line(granted: bool) -> &'static str
    ensures exact { result.now ≡ outcome_line granted }
{
    if granted { "granted\n" } else { "refused\n" }
}
