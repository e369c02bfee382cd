//! A tree, written as a data file.

ghost use Rattle.std.specs.Prelude.{◌≡◌, ◌∷◌, flat_map, OnOk};
ghost use Rattle.wire_io.specs.Putting.{PutsAll, PutCause};
ghost use Rattle.dir_tree.specs.Scope.{scoped};
ghost use Rattle.dir_tree.specs.declared.scope.Scope.TheVariants.{Sub};
ghost use Rattle.ldif_load.specs.ldif_records.writing.Written.{AreInTable};
ghost use Rattle.ldif_load.specs.ldif_records.writing.WrittenFile.{written_file, written_record, written_records};
ghost use Rattle.dir_tree.specs.tree.Numbered.{entries_of};
ghost use Rattle.aci_item.specs.Rules.{IsGoodTree};
ghost use Rattle.data_file.specs.Steps.{AreOfTable, text_at};

use crate::fault::NoMemory;
use crate::laws::the_types_of_good_entries_are_in_the_table;
use dir_tree::{Entry, EntryNo, Scope, Tree};
use ldif_load::ldif_records::put_entry;
use std::alloc::Global;
use wire_io::{PutFault, Sink, write_all};

/// Puts the data file of the tree: its version, and the record of each entry in the order of names, with an empty line
/// before each. The tree is a good one. After a refusal a front of it was put; `Failed` comes where the sink's count of
/// faults rose.
pub fn put_tree<K: Sink>(alloc: Global, tree: &Tree, out: &mut K) -> Result<(), PutFault>
    requires { IsGoodTree (entries_of tree.now) }
    ensures tells { PutsAll (K.put out.old) (written_file (entries_of tree.now))
        result (K.put out.new) }
    ensures cause { PutCause (K.faults out.old) (K.faults out.new) result }
{
    the_types_of_good_entries_are_in_the_table();
    match write_all(out, b"version: 1\n") {
        Ok(()) => put_entries(alloc, tree, out),
        Err(fault) => Err(fault),
    }
}

// Puts the records of all entries.
fn put_entries<K: Sink>(alloc: Global, tree: &Tree, out: &mut K) -> Result<(), PutFault>
    requires table { AreOfTable (entries_of tree.now) }
    ensures tells { PutsAll (K.put out.old) (written_records (entries_of tree.now))
        result (K.put out.new) }
    ensures cause { PutCause (K.faults out.old) (K.faults out.new) result }
{
    tree.entries_form_a_tree();
    match tree.suffix() {
        Some(suffix) => put_below(alloc, tree, suffix, out),
        None => Ok(()),
    }
}

// Puts the records of the entry of the number and of those below it, in the memory of one record.
fn put_below<K: Sink>(
    alloc: Global,
    tree: &Tree,
    base: EntryNo,
    out: &mut K,
) -> Result<(), PutFault>
    requires table { AreOfTable (entries_of tree.now) }
    ensures tells { PutsAll (K.put out.old)
        (flat_map (text_at tree.now) (scoped Sub base.0 tree.now)) result (K.put out.new) }
    ensures cause { PutCause (K.faults out.old) (K.faults out.new) result }
{
    let mut text = Vec::new(alloc);
    for no in tree.below(base, Scope::Sub) {
        match put_at(tree, no, &mut text, out) {
            Ok(()) => {}
            Err(fault) => return Err(fault),
        }
    }
    Ok(())
}

// Puts the record of the entry of the number.
fn put_at<K: Sink>(
    tree: &Tree,
    no: EntryNo,
    text: &mut Vec<u8>,
    out: &mut K,
) -> Result<(), PutFault>
    requires table { AreOfTable (entries_of tree.now) }
    ensures tells { PutsAll (K.put out.old) (text_at tree.now no.0) result (K.put out.new) }
    ensures cause { PutCause (K.faults out.old) (K.faults out.new) result }
{
    match tree.at(no) {
        Some(entry) => put_record(entry, text, out),
        None => Ok(()),
    }
}

// Puts the record of the entry, from a text that is used again.
fn put_record<K: Sink>(entry: &Entry, text: &mut Vec<u8>, out: &mut K) -> Result<(), PutFault>
    requires { AreInTable entry.now.attributes }
    ensures tells { PutsAll (K.put out.old) (written_record entry.now) result (K.put out.new) }
    ensures cause { PutCause (K.faults out.old) (K.faults out.new) result }
{
    match write_record(entry, text) {
        Ok(()) => write_all(out, text.as_slice()),
        Err(_) => Err(PutFault::NoMemory),
    }
}

// Writes an empty line and the record of the entry in place of what the text was.
fn write_record(entry: &Entry, text: &mut Vec<u8>) -> Result<(), NoMemory>
    requires { AreInTable entry.now.attributes }
    ensures ok { OnOk result (text.new.items ≡ written_record entry.now) }
{
    text.clear();
    text.extend_from_slice(b"\n")?;
    put_entry(text, entry)
}
