//! Entries and directories of texts, and what directories keep as text.

use dir_tree::dn_names::{make_value, parse, print};
use dir_tree::schema_tables::attr;
use dir_tree::{Entry, EntryNo, Scope, Tree};
use directory::Dir;
use std::alloc::Global;
use std::test::Fail;

/// Types, each with a value; a type may stand several times.
pub type Attributes = &'static [(&'static str, &'static str)];

/// The entry of the name with the attributes.
pub fn entry(alloc: Global, name: &str, attributes: &[(&str, &str)]) -> Result<Entry, Fail> {
    let mut entry = Entry::new(alloc, parse(alloc, name.as_bytes())?)?;
    for (kind, text) in attributes {
        let kind = attr(kind).ok_or("no such type")?;
        let value = make_value(alloc, kind, text.as_bytes().to_vec(alloc)?)?;
        let _added = entry.push(kind, value)?;
    }
    Ok(entry)
}

/// Puts the entry of the name in.
pub fn put(
    alloc: Global,
    tree: &mut Tree,
    name: &str,
    attributes: &[(&str, &str)],
) -> Result<(), Fail> {
    let entry = entry(alloc, name, attributes)?;
    if entry.name().len() == 0 {
        return Err(Fail::from("no name"));
    }
    let _number = tree.insert(entry)?;
    Ok(())
}

/// The tree of the entries.
pub fn tree(alloc: Global, entries: &'static [(&'static str, Attributes)]) -> Result<Tree, Fail> {
    let mut tree = Tree::new(alloc);
    for (name, attributes) in entries {
        put(alloc, &mut tree, name, attributes)?;
    }
    Ok(tree)
}

/// The number of the entry of the name.
pub fn number(alloc: Global, tree: &Tree, name: &str) -> Result<EntryNo, Fail> {
    let number = tree
        .find(&parse(alloc, name.as_bytes())?)
        .ok_or("no entry of the name")?;
    Ok(number)
}

// Appends the names of the entries of the numbers, one behind the other.
fn put_names(
    alloc: Global,
    tree: &Tree,
    numbers: &[EntryNo],
    out: &mut String,
) -> Result<(), Fail> {
    for number in numbers {
        let entry = tree.at(*number).ok_or("no entry of the number")?;
        print(alloc, entry.name(), out)?;
        out.push(' ')?;
    }
    Ok(())
}

/// The names of the subentries in force for the entry of the number, as the directory keeps them.
pub fn kept_at<D: Dir>(alloc: Global, dir: &D, number: EntryNo) -> Result<String, Fail> {
    let mut out = String::new(alloc);
    put_names(alloc, dir.tree(), dir.in_force(number), &mut out)?;
    Ok(out)
}

/// The same of an entry that is to be added.
pub fn new_at<D: Dir>(alloc: Global, dir: &D, entry: &Entry) -> Result<String, Fail> {
    let mut out = String::new(alloc);
    let numbers = dir.in_force_new(alloc, entry)?;
    put_names(alloc, dir.tree(), numbers.as_slice(), &mut out)?;
    Ok(out)
}

/// The names of those in force for the entry of the number as the entries say.
pub fn said_at(alloc: Global, tree: &Tree, number: EntryNo) -> Result<String, Fail> {
    let mut out = String::new(alloc);
    let numbers = acdf_filters::admin_scope::in_force(alloc, tree, number)?;
    put_names(alloc, tree, numbers.as_slice(), &mut out)?;
    Ok(out)
}

// Appends the name of the entry of the number, and what is in force for it.
fn put_line(
    alloc: Global,
    tree: &Tree,
    number: EntryNo,
    in_force: &str,
    out: &mut String,
) -> Result<(), Fail> {
    let entry = tree.at(number).ok_or("no entry of the number")?;
    print(alloc, entry.name(), out)?;
    write!(out, ": {in_force};")?;
    Ok(())
}

/// Of each entry its name, and what the directory keeps as in force for it.
pub fn kept<D: Dir>(alloc: Global, dir: &D) -> Result<String, Fail> {
    let mut out = String::new(alloc);
    let tree = dir.tree();
    if let Some(suffix) = tree.suffix() {
        for number in tree.below(suffix, Scope::Sub) {
            let line = kept_at(alloc, dir, number)?;
            put_line(alloc, tree, number, line.as_str(), &mut out)?;
        }
    }
    Ok(out)
}

/// Of each entry its name, and what is in force for it as the entries say.
pub fn said(alloc: Global, tree: &Tree) -> Result<String, Fail> {
    let mut out = String::new(alloc);
    if let Some(suffix) = tree.suffix() {
        for number in tree.below(suffix, Scope::Sub) {
            let line = said_at(alloc, tree, number)?;
            put_line(alloc, tree, number, line.as_str(), &mut out)?;
        }
    }
    Ok(out)
}
