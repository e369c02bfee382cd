//! Entries that take the places of others of their names, and readers beside them.
use dir_tree::dn_names::{make_value, parse};
use dir_tree::schema_tables::{AttrId, attr};
use dir_tree::{Entry, EntryNo, NoMemory, Tree, TreeReader};
use std::alloc::{AllocError, Global};
use std::test::Fail;

fn description() -> Result<AttrId, Fail> {
    Ok(attr("description").ok_or("no such type")?)
}

// The entry of the name with the description.
fn entry(alloc: Global, name: &str, text: &str) -> Result<Entry, Fail> {
    let Some(kind) = attr("description") else {
        return Err(Fail::from("no such type"));
    };
    let mut entry = Entry::new(alloc, parse(alloc, name.as_bytes())?)?;
    let value = make_value(alloc, kind, text.as_bytes().to_vec(alloc)?)?;
    let _added = entry.push(kind, value)?;
    Ok(entry)
}

// Puts the entry in.
fn put(tree: &mut Tree, entry: Entry) -> Result<EntryNo, Fail> {
    if entry.name().len() == 0 {
        return Err(Fail::from("no name"));
    }
    Ok(tree.insert(entry)?)
}

// The descriptions of the entry of the number, one behind the other.
fn told(alloc: Global, entry: &Entry) -> Result<String, Fail> {
    let mut out = String::new(alloc);
    for value in entry.values(description()?) {
        out.push_str(std::str::from_utf8(value.octets())?)?;
    }
    Ok(out)
}

// The same of the entry of the number.
fn told_at(alloc: Global, tree: &Tree, number: EntryNo) -> Result<String, Fail> {
    told(alloc, tree.at(number).ok_or("no entry of the number")?)
}

// A reader, which counts entries where it has memory.
#[derive(Drop)]
struct Counter {
    has_memory: bool,
    entries: usize,
}

impl TreeReader for Counter {
    ghost use Rattle.std.specs.Prelude.{◌≡◌, length};

    ghost has_read = { λ before counter rows. counter.entries ≡ length rows };

    fn read(&mut self, tree: &Tree) -> Result<(), NoMemory> {
        if !self.has_memory {
            return Err(AllocError);
        }
        self.entries = tree.len();
        Ok(())
    }
}

#[test]
fn an_entry_takes_the_place_of_one_of_its_name(rt: HostRuntime) -> Result<(), Fail> {
    let alloc = rt.alloc();
    let mut tree = Tree::new(alloc);
    let number = put(&mut tree, entry(alloc, "ou=u", "first")?)?;
    let _below = put(&mut tree, entry(alloc, "cn=a,ou=u", "below")?)?;
    let new = entry(alloc, "OU=U", "second")?;
    if !tree.is_called(number, new.name()) {
        return Err(Fail::from("another name"));
    }
    let old = tree.revise(number, new)?;
    assert_eq!(rt; told(alloc, &old)?.as_str(), "first");
    assert_eq!(rt; told_at(alloc, &tree, number)?.as_str(), "second");
    assert_eq!(rt; tree.len(), 2);
    Ok(())
}

#[test]
fn a_name_is_that_of_the_entry_of_a_number_or_not(rt: HostRuntime) -> Result<(), Fail> {
    let alloc = rt.alloc();
    let mut tree = Tree::new(alloc);
    let number = put(&mut tree, entry(alloc, "ou=u", "first")?)?;
    for (name, want) in [
        ("ou=u", true),
        ("OU= U", true),
        ("ou=v", false),
        ("cn=a,ou=u", false),
    ] {
        let found = tree.is_called(number, &parse(alloc, name.as_bytes())?);
        assert_eq!(rt; found, want, "{name}");
    }
    let _gone = tree.remove(number)?;
    assert!(rt; !tree.is_called(number, &parse(alloc, b"ou=u")?));
    Ok(())
}

#[test]
fn what_a_reader_wants_memory_for_is_put_back(rt: HostRuntime) -> Result<(), Fail> {
    let alloc = rt.alloc();
    let mut tree = Tree::new(alloc);
    let number = put(&mut tree, entry(alloc, "ou=u", "first")?)?;
    for (has_memory, want) in [(false, "first"), (true, "second")] {
        let new = entry(alloc, "ou=u", "second")?;
        let mut counter = Counter {
            has_memory,
            entries: 0,
        };
        if !tree.is_called(number, new.name()) {
            return Err(Fail::from("another name"));
        }
        let result = tree.revise_read(number, new, &mut counter);
        assert_eq!(rt; result.is_ok(), has_memory);
        assert_eq!(rt; counter.entries, if has_memory { 1 } else { 0 });
        assert_eq!(rt; told_at(alloc, &tree, number)?.as_str(), want);
    }
    Ok(())
}
