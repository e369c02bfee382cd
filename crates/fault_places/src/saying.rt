//! How a fault is said in a line.

ghost use Rattle.std.specs.Prelude.{◌≡◌, ◌+◌, ◌++◌, IfOk, OnOk, codes, decimal, string_bytes};
ghost use Rattle.dir_tree.specs.schema_tables.Attributes.{name_of};
ghost use Rattle.text_stops.specs.Stops.{shown};
ghost use Rattle.fault_places.specs.Saying.{why_at, said, value_at, place_said, item_place, subtree_place};

use aci_item::BadText;
use dir_tree::schema_tables::{AttrId, row};
use std::alloc::{AllocError, Global};
use text_stops::{item_stop, put_shown, put_word, subtree_stop};

/// No memory was left.
pub type NoMemory = AllocError;

/// The type's name as the table spells it.
pub(crate) fn name_of(kind: AttrId) -> &'static str
    ensures exact { result.now ≡ name_of kind.0 }
{
    match row(kind) {
        Some(row) => row.name,
        None => "",
    }
}

/// Writes what is wrong at a line: the text, which ends in LF.
pub(crate) fn put_said(line: u64, text: &str, out: &mut String) -> Result<(), NoMemory>
    ensures ok { OnOk result (string_bytes out.new ≡ string_bytes out.old ++ said line text.now) }
{
    write!(out, "why: line {line}: {text}")
}

/// Writes at which line something is wrong.
pub(crate) fn put_at(line: u64, out: &mut String) -> Result<(), NoMemory>
    ensures ok { OnOk result (string_bytes out.new ≡ string_bytes out.old ++ why_at line) }
{
    write!(out, "why: line {line}")
}

/// Writes octets behind a text.
pub(crate) fn put_shown_behind(front: &str, octets: &[u8], out: &mut String) -> Result<(), NoMemory>
    ensures ok { OnOk result (string_bytes out.new ≡ string_bytes out.old ++ (front.now ++ shown octets.now)) }
{
    out.push_str(front)?;
    put_shown(octets, out)
}

// Writes octets between texts.
fn put_shown_between(
    front: &str,
    octets: &[u8],
    end: &str,
    out: &mut String,
) -> Result<(), NoMemory>
    ensures ok { OnOk result (string_bytes out.new
        ≡ string_bytes out.old ++ (front.now ++ (shown octets.now ++ end.now))) }
{
    put_shown_behind(front, octets, out)?;
    out.push_str(end)
}

/// Writes what is wrong at a line, with octets between texts.
pub(crate) fn put_said_shown(
    line: u64,
    front: &str,
    octets: &[u8],
    end: &str,
    out: &mut String,
) -> Result<(), NoMemory>
    ensures ok { OnOk result (string_bytes out.new
        ≡ string_bytes out.old ++ said line (front.now ++ (shown octets.now ++ end.now))) }
{
    put_said(line, "", out)?;
    put_shown_between(front, octets, end, out)
}

/// Writes what is wrong at a line, with the name of a type between texts.
pub(crate) fn put_said_kind(
    line: u64,
    front: &str,
    kind: AttrId,
    end: &str,
    out: &mut String,
) -> Result<(), NoMemory>
    ensures ok { OnOk result (string_bytes out.new
        ≡ string_bytes out.old ++ said line (front.now ++ (name_of kind.0 ++ end.now))) }
{
    let name = name_of(kind);
    write!(out, "why: line {line}: {front}{name}{end}")
}

/// Writes what is wrong at a line, with the name of a type, and with octets between texts.
pub(crate) fn put_said_both(
    line: u64,
    kind: AttrId,
    front: &str,
    octets: &[u8],
    end: &str,
    out: &mut String,
) -> Result<(), NoMemory>
    ensures ok { OnOk result (string_bytes out.new ≡ string_bytes out.old
        ++ said line (name_of kind.0 ++ (front.now ++ (shown octets.now ++ end.now)))) }
{
    put_said(line, name_of(kind), out)?;
    put_shown_between(front, octets, end, out)
}

/// Writes the attribute's type, and which of its values.
pub(crate) fn put_value_at(
    line: u64,
    kind: AttrId,
    number: usize,
    out: &mut String,
) -> Result<(), NoMemory>
    ensures ok { OnOk result (string_bytes out.new ≡ string_bytes out.old ++ value_at line kind.0 number) }
{
    let name = name_of(kind);
    write!(out, "why: line {line}, {name}, value {number}")
}

// Writes the number of an octet, counted from 1.
fn put_octet(place: usize, out: &mut String) -> Result<(), NoMemory>
    ensures ok { OnOk result (string_bytes out.new
        ≡ string_bytes out.old ++ (codes ", octet " ++ (decimal (place + 1) ++ codes ": "))) }
{
    let octet = place as u128 + 1;
    write!(out, ", octet {octet}: ")
}

/// Writes the octet of the value, and the word that stands there.
pub(crate) fn put_place(text: &[u8], place: Option<usize>, out: &mut String) -> Result<(), NoMemory>
    ensures ok { OnOk result (string_bytes out.new ≡ string_bytes out.old ++ place_said text.now place) }
{
    match place {
        Some(place) => {
            put_octet(place, out)?;
            put_word(text, place, out)
        }
        None => Ok(()),
    }
}

/// Where reading the text as an access control item stops; None where it is one.
#[tactic(auto, unfolding(crate::specs::Saying::item_place))]
pub(crate) fn item_place(alloc: Global, text: &[u8]) -> Result<Option<Option<usize>>, NoMemory>
    ensures ok { IfOk result (λ place. place ≡ item_place text.now) }
{
    match aci_item::read(alloc, text) {
        Ok(_) => Ok(None),
        Err(BadText::Part { place }) => Ok(Some(Some(place))),
        Err(BadText::NoMemory) => Err(AllocError),
        Err(BadText::Text) => Ok(Some(item_stop(alloc, text)?)),
    }
}

/// The same for a subtree specification.
#[tactic(auto, unfolding(crate::specs::Saying::subtree_place))]
pub(crate) fn subtree_place(alloc: Global, text: &[u8]) -> Result<Option<Option<usize>>, NoMemory>
    ensures ok { IfOk result (λ place. place ≡ subtree_place text.now) }
{
    match subtree_spec::read(alloc, text) {
        Ok(_) => Ok(None),
        Err(BadText::Part { place }) => Ok(Some(Some(place))),
        Err(BadText::NoMemory) => Err(AllocError),
        Err(BadText::Text) => Ok(Some(subtree_stop(alloc, text)?)),
    }
}
