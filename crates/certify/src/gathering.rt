//! The items whose tuples count for an entry.

ghost use Rattle.std.specs.Prelude.{◌≡◌, ◌++◌, [], Some, IfOk, OnOk, flat_map, map};
ghost use Rattle.std.specs.Option.{option_map_or};
ghost use Rattle.dir_tree.specs.tree.Numbered.{entry_of, entries_of, entries_at, superior_of};
ghost use Rattle.acdf_filters.specs.admin_scope.InForce.{in_force};
ghost use Rattle.acdf_filters.specs.Tuples.{prescriptive_aci, subentry_aci};
ghost use Rattle.acdf_filters.specs.weighing.Weighing.{tagged_of};
ghost use Rattle.certify.specs.Making.{items_at, inherited_items, counting_items};

use acdf_filters::{Question, TaggedTuples, read_items};
use dir_tree::schema_tables::AttrId;
use dir_tree::{Entry, EntryNo, NoMemory, Tree};
use std::alloc::Global;

// Puts the items of the values of the type of the entry of the number at the end.
fn put_items(
    alloc: Global,
    tree: &Tree,
    source: EntryNo,
    kind: AttrId,
    items: &mut Vec<TaggedTuples>,
) -> Result<(), NoMemory>
    ensures ok { OnOk result
        (map tagged_of items.new.items ≡ map tagged_of items.old.items ++ items_at tree.now kind.0 source.0) }
{
    match tree.at(source) {
        Some(entry) => {
            let mut found = read_items(alloc, entry, kind)?;
            items.append(&mut found)
        }
        None => Ok(()),
    }
}

// Puts those of the subentries of the numbers at the end.
fn put_subentries(
    alloc: Global,
    tree: &Tree,
    numbers: &[EntryNo],
    items: &mut Vec<TaggedTuples>,
) -> Result<(), NoMemory>
    ensures ok { OnOk result (map tagged_of items.new.items ≡ map tagged_of items.old.items
        ++ flat_map (items_at tree.now prescriptive_aci) (map (λ no. no.0) numbers.now)) }
{
    for number in numbers {
        put_items(alloc, tree, *number, AttrId::PRESCRIPTIVE_ACI, items)?;
    }
    Ok(())
}

// Puts those that a subentry has from the entry above it at the end.
fn put_above(
    alloc: Global,
    tree: &Tree,
    number: EntryNo,
    items: &mut Vec<TaggedTuples>,
) -> Result<(), NoMemory>
    ensures ok { OnOk result (map tagged_of items.new.items ≡ map tagged_of items.old.items
        ++ option_map_or (items_at tree.now subentry_aci) (superior_of number.0 tree.now) []) }
{
    match tree.superior(number) {
        Some(above) => put_items(alloc, tree, above, AttrId::SUBENTRY_ACI, items),
        None => Ok(()),
    }
}

// Those that the entry, which has the number, has from others.
fn inherited(
    alloc: Global,
    tree: &Tree,
    entry: &Entry,
    number: EntryNo,
    numbers: &[EntryNo],
) -> Result<Vec<TaggedTuples>, NoMemory>
    requires entry { entry_of number.0 tree.now ≡ Some entry.now }
    requires in_force { entries_at tree.now (map (λ no. no.0) numbers.now) ≡ in_force (entries_of tree.now) entry.now }
    ensures ok { IfOk result (λ items. map tagged_of items.items ≡ inherited_items (entries_of tree.now) entry.now) }
{
    tree.entries_form_a_tree();
    let mut items = Vec::new(alloc);
    if entry.is_subentry() {
        put_above(alloc, tree, number, &mut items)?;
        return Ok(items);
    }
    put_subentries(alloc, tree, numbers, &mut items)?;
    Ok(items)
}

/// The items whose tuples count for the entry of the question, which has the number, in their order.
pub(crate) fn gather(
    alloc: Global,
    question: &Question<'_>,
    number: EntryNo,
    numbers: &[EntryNo],
) -> Result<Vec<TaggedTuples>, NoMemory>
    requires entry { entry_of number.0 question.now.tree.now ≡ Some question.now.entry.now }
    requires in_force { entries_at question.now.tree.now (map (λ no. no.0) numbers.now)
        ≡ in_force (entries_of question.now.tree.now) question.now.entry.now }
    ensures ok { IfOk result (λ items. map tagged_of items.items
        ≡ counting_items (entries_of question.now.tree.now) question.now.entry.now) }
{
    let mut items = inherited(alloc, question.tree, question.entry, number, numbers)?;
    put_items(alloc, question.tree, number, AttrId::ENTRY_ACI, &mut items)?;
    Ok(items)
}
