//! The tuples that count for an entry, as the filters ask of them.

ghost use Rattle.std.specs.Prelude.{◌≡◌, ◌++◌, ◌∷◌, [], Some, IfOk, OnOk, map, flat_map};
ghost use Rattle.std.specs.Option.{option_map_or};
ghost use Rattle.dir_tree.specs.tree.Numbered.{entry_of, entries_of, entries_at, superior_of};
ghost use Rattle.acdf_filters.specs.admin_scope.InForce.{in_force};
ghost use Rattle.acdf_filters.specs.aci_item.item.Views.{tuple_of};
ghost use Rattle.acdf_filters.specs.Tuples.{listed_by, listed_in, inherited, tuples_of, prescriptive_aci, subentry_aci};
ghost use Rattle.acdf_filters.specs.weighing.Weighing.{KnowsGroups, tagged_of};
ghost use Rattle.explanation.specs.Explained.{name_at};
ghost use Rattle.explanation.specs.Candidates.{described_for, described_all, listed_at};

use crate::facts::{Facts, facts_for};
use acdf_filters::aci_item::AciTuple;
use acdf_filters::{Question, TaggedTuples, read_items};
use dir_tree::schema_tables::AttrId;
use dir_tree::{EntryNo, NoMemory};
use std::alloc::Global;

/// A tuple that counts for an entry.
#[derive(Drop)]
pub(crate) struct Candidate {
    /// The entry that holds its item.
    pub source: EntryNo,
    /// The item's tag.
    pub tag: String,
    pub facts: Facts,
}

// Puts a tuple at the end.
fn put_tuple(
    question: &Question<'_>,
    source: EntryNo,
    tag: &str,
    tuple: &AciTuple,
    out: &mut Vec<Candidate>,
) -> Result<(), NoMemory>
    requires { KnowsGroups question.now }
    ensures ok { OnOk result (described_all question.now.tree.now out.new.items
        ≡ described_all question.now.tree.now out.old.items ++ described_for question.now
        (record { source = name_at question.now.tree.now source.0; tag = tag.now; tuple = tuple_of tuple.now }) ∷ []) }
{
    let alloc = *out.allocator();
    out.push(Candidate {
        source,
        tag: String::from_str(alloc, tag)?,
        facts: facts_for(question, tuple),
    })?;
    Ok(())
}

// Puts tuples of an item of this tag at the end.
fn put_tuples(
    question: &Question<'_>,
    source: EntryNo,
    tag: &str,
    tuples: &[AciTuple],
    out: &mut Vec<Candidate>,
) -> Result<(), NoMemory>
    requires { KnowsGroups question.now }
    ensures ok { OnOk result (described_all question.now.tree.now out.new.items
        ≡ described_all question.now.tree.now out.old.items ++ map (described_for question.now)
        (listed_by (name_at question.now.tree.now source.0) (record { tag = tag.now; tuples = map tuple_of tuples.now }))) }
{
    for tuple in tuples {
        put_tuple(question, source, tag, tuple, out)?;
    }
    Ok(())
}

// Puts those of an item at the end.
fn put_item(
    question: &Question<'_>,
    source: EntryNo,
    item: &TaggedTuples,
    out: &mut Vec<Candidate>,
) -> Result<(), NoMemory>
    requires { KnowsGroups question.now }
    ensures ok { OnOk result (described_all question.now.tree.now out.new.items
        ≡ described_all question.now.tree.now out.old.items
        ++ map (described_for question.now) (listed_by (name_at question.now.tree.now source.0) (tagged_of item.now))) }
{
    put_tuples(question, source, &item.tag, &item.tuples, out)
}

// Puts those of items at the end.
fn put_items(
    question: &Question<'_>,
    source: EntryNo,
    items: &[TaggedTuples],
    out: &mut Vec<Candidate>,
) -> Result<(), NoMemory>
    requires { KnowsGroups question.now }
    ensures ok { OnOk result (described_all question.now.tree.now out.new.items
        ≡ described_all question.now.tree.now out.old.items ++ map (described_for question.now)
        (flat_map (listed_by (name_at question.now.tree.now source.0)) (map tagged_of items.now))) }
{
    for item in items {
        put_item(question, source, item, out)?;
    }
    Ok(())
}

// Puts those of the values of the type of the entry of the number at the end.
fn put_values(
    alloc: Global,
    question: &Question<'_>,
    source: EntryNo,
    kind: AttrId,
    out: &mut Vec<Candidate>,
) -> Result<(), NoMemory>
    requires { KnowsGroups question.now }
    ensures ok { OnOk result (described_all question.now.tree.now out.new.items
        ≡ described_all question.now.tree.now out.old.items
        ++ map (described_for question.now) (listed_at question.now.tree.now kind.0 source.0)) }
{
    match question.tree.at(source) {
        Some(entry) => {
            let items = read_items(alloc, entry, kind)?;
            put_items(question, source, &items, out)
        }
        None => Ok(()),
    }
}

// Puts those of the subentries of the numbers at the end.
fn put_subentries(
    alloc: Global,
    question: &Question<'_>,
    numbers: &[EntryNo],
    out: &mut Vec<Candidate>,
) -> Result<(), NoMemory>
    requires { KnowsGroups question.now }
    ensures ok { OnOk result (described_all question.now.tree.now out.new.items
        ≡ described_all question.now.tree.now out.old.items ++ map (described_for question.now)
        (flat_map (λ no. listed_at question.now.tree.now prescriptive_aci no.0) numbers.now)) }
{
    for source in numbers {
        put_values(alloc, question, *source, AttrId::PRESCRIPTIVE_ACI, out)?;
    }
    Ok(())
}

// Puts those that a subentry has from the entry above it at the end.
fn put_below(
    alloc: Global,
    question: &Question<'_>,
    number: EntryNo,
    out: &mut Vec<Candidate>,
) -> Result<(), NoMemory>
    requires { KnowsGroups question.now }
    ensures ok { OnOk result (described_all question.now.tree.now out.new.items
        ≡ described_all question.now.tree.now out.old.items ++ map (described_for question.now)
        (option_map_or (listed_at question.now.tree.now subentry_aci) (superior_of number.0 question.now.tree.now) [])) }
{
    match question.tree.superior(number) {
        Some(above) => put_values(alloc, question, above, AttrId::SUBENTRY_ACI, out),
        None => Ok(()),
    }
}

// Those that the entry, which has the number, has from others.
fn inherited(
    alloc: Global,
    question: &Question<'_>,
    number: EntryNo,
    numbers: &[EntryNo],
) -> Result<Vec<Candidate>, NoMemory>
    requires groups { KnowsGroups question.now }
    requires entry { entry_of number.0 question.now.tree.now ≡ Some question.now.entry.now }
    requires in_force { entries_at question.now.tree.now (map (λ no. no.0) numbers.now)
        ≡ in_force (entries_of question.now.tree.now) question.now.entry.now }
    ensures ok { IfOk result (λ found. described_all question.now.tree.now found.items
        ≡ map (described_for question.now) (inherited (entries_of question.now.tree.now) question.now.entry.now)) }
{
    question.tree.entries_form_a_tree();
    let mut found = Vec::new(alloc);
    if question.entry.is_subentry() {
        put_below(alloc, question, number, &mut found)?;
        return Ok(found);
    }
    put_subentries(alloc, question, numbers, &mut found)?;
    Ok(found)
}

/// The tuples that count for the entry of the question, which has the number, in their order: they are read again from
/// the values. The error comes where memory is wanted.
pub(crate) fn list_candidates(
    alloc: Global,
    question: &Question<'_>,
    number: EntryNo,
    numbers: &[EntryNo],
) -> Result<Vec<Candidate>, NoMemory>
    requires groups { KnowsGroups question.now }
    requires entry { entry_of number.0 question.now.tree.now ≡ Some question.now.entry.now }
    requires in_force { entries_at question.now.tree.now (map (λ no. no.0) numbers.now)
        ≡ in_force (entries_of question.now.tree.now) question.now.entry.now }
    ensures ok { IfOk result (λ found. described_all question.now.tree.now found.items
        ≡ map (described_for question.now) (tuples_of (entries_of question.now.tree.now) question.now.entry.now)) }
{
    let mut found = inherited(alloc, question, number, numbers)?;
    put_values(alloc, question, number, AttrId::ENTRY_ACI, &mut found)?;
    Ok(found)
}
