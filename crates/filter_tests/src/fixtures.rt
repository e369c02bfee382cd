//! Entries that the tests make.
use dir_tree::Entry;
use dir_tree::dn_names::{make_value, parse};
use dir_tree::schema_tables::attr;
use std::alloc::Global;
use std::test::Fail;

// The values of an entry, each with the name of its type.
pub type Values = &'static [(&'static str, &'static str)];

// The entry with these values.
pub fn entry(alloc: Global, values: Values) -> Result<Entry, Fail> {
    let mut entry = Entry::new(alloc, parse(alloc, b"cn=one,dc=example")?)?;
    for (kind, text) in values {
        let kind = attr(kind).ok_or("no such type")?;
        let value = make_value(alloc, kind, text.as_bytes().to_vec(alloc)?)?;
        if !entry.push(kind, value)? {
            return Err(Fail::from("a value that is not added"));
        }
    }
    Ok(entry)
}
