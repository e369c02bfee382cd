//! How a thing is noted in a line.

ghost use Rattle.std.specs.Prelude.{◌≡◌, ◌++◌, OnOk, codes, string_bytes};
ghost use Rattle.dir_tree.specs.schema_tables.Attributes.{name_of};
ghost use Rattle.dir_tree.specs.dn_names.Printing.{print_name};
ghost use Rattle.data_advice.specs.Noting.{place_text, noted, place_of};

use dir_tree::dn_names::{Dn, print};
use dir_tree::schema_tables::{AttrId, row};
use std::alloc::{AllocError, Global};

/// No memory was left.
pub type NoMemory = AllocError;

/// A value of an entry: the entry's name, the type, and which of its values, counted from 1.
#[derive(Clone, Copy)]
pub(crate) struct Spot<'a> {
    pub(crate) name: &'a Dn,
    pub(crate) kind: AttrId,
    pub(crate) number: usize,
}

// The type's name as the table spells it.
fn name_of(kind: AttrId) -> &'static str
    ensures exact { result.now ≡ name_of kind.0 }
{
    match row(kind) {
        Some(row) => row.name,
        None => "",
    }
}

/// Writes of which value something is noted.
pub(crate) fn put_place(alloc: Global, spot: &Spot<'_>, out: &mut String) -> Result<(), NoMemory>
    ensures ok { OnOk result (string_bytes out.new ≡ string_bytes out.old ++ place_text (place_of spot.now)) }
{
    out.push_str("note: ")?;
    print(alloc, spot.name, out)?;
    let name = name_of(spot.kind);
    let number = spot.number;
    write!(out, ", {name}, value {number}: ")
}

/// Writes what is noted of a value: the text, which ends in LF.
pub(crate) fn put_noted(
    alloc: Global,
    spot: &Spot<'_>,
    text: &str,
    out: &mut String,
) -> Result<(), NoMemory>
    ensures ok { OnOk result (string_bytes out.new ≡ string_bytes out.old ++ noted (place_of spot.now) text.now) }
{
    put_place(alloc, spot, out)?;
    out.push_str(text)
}

/// Writes what is noted of a value, with a name between texts.
pub(crate) fn put_named(
    alloc: Global,
    spot: &Spot<'_>,
    front: &str,
    name: &Dn,
    end: &str,
    out: &mut String,
) -> Result<(), NoMemory>
    ensures ok { OnOk result (string_bytes out.new ≡ string_bytes out.old
        ++ noted (place_of spot.now) (front.now ++ (print_name name.now ++ end.now))) }
{
    put_noted(alloc, spot, front, out)?;
    print(alloc, name, out)?;
    out.push_str(end)
}
