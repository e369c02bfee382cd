//! The lines of what was asked.

ghost use Rattle.std.specs.Prelude.{◌≡◌, ◌++◌, ◌∷◌, [], IfOk, OnOk, codes, map};
ghost use Rattle.dir_tree.specs.schema_tables.Attributes.{name_of};
ghost use Rattle.acdf_filters.specs.aci_item.ItemPrinted.{permission_name};
ghost use Rattle.acdf_filters.specs.Asking.{protected_of};
ghost use Rattle.acdf_filters.specs.weighing.Weighing.{asked_of};
ghost use Rattle.line_text.specs.Escapes.{escaped};
ghost use Rattle.certify.specs.Lines.{line_of, whole};
ghost use Rattle.certify.specs.Certificate.{item_word, question_lines, who_line};

use crate::lines::{Line, put_before, put_text, put_whole};
use acdf_filters::aci_item::Permission;
use acdf_filters::{Item, Question};
use dir_tree::NoMemory;
use dir_tree::dn_names::{Dn, Value};
use dir_tree::schema_tables::{AttrId, row};
use explanation::permission_name;
use line_text::put_escaped;
use std::alloc::Global;

/// The name of the attribute type; empty for a number past the table.
pub(crate) fn kind_name(kind: AttrId) -> &'static str
    ensures exact { result.now ≡ name_of kind.0 }
{
    match row(kind) {
        Some(row) => row.name,
        None => "",
    }
}

// Puts the line of who asks at the end.
fn put_who(name: &Option<Dn>, lines: &mut Vec<Line>) -> Result<(), NoMemory>
    ensures ok { OnOk result
        (map line_of lines.new.items ≡ map line_of lines.old.items ++ who_line name.now ∷ []) }
{
    match name {
        Some(name) => put_before("who ", name, lines),
        None => put_text("who anonymous", lines),
    }
}

// Writes the word of a type.
fn put_kind_word(kind: AttrId, out: &mut Vec<u8>) -> Result<(), NoMemory>
    ensures ok { OnOk result (out.new.items ≡ out.old.items ++ (codes "type:" ++ name_of kind.0)) }
{
    out.extend_from_slice(b"type:")?;
    out.extend_from_slice(kind_name(kind).as_bytes())
}

// Writes the word of a value.
fn put_value_word(kind: AttrId, value: &Value, out: &mut Vec<u8>) -> Result<(), NoMemory>
    ensures ok { OnOk result (out.new.items
        ≡ out.old.items ++ (codes "value:" ++ (name_of kind.0 ++ (codes "=" ++ value.now.octets)))) }
{
    out.extend_from_slice(b"value:")?;
    out.extend_from_slice(kind_name(kind).as_bytes())?;
    out.extend_from_slice(b"=")?;
    out.extend_from_slice(value.octets())
}

// Writes the word of an item.
fn put_item_word(item: &Item<'_>, out: &mut Vec<u8>) -> Result<(), NoMemory>
    ensures ok { OnOk result (out.new.items ≡ out.old.items ++ item_word (protected_of item.now)) }
{
    match item {
        Item::Entry => out.extend_from_slice(b"entry"),
        Item::Kind(kind) => put_kind_word(*kind, out),
        Item::Value(kind, value) => put_value_word(*kind, value, out),
    }
}

// Puts the line of the item at the end.
fn put_item(item: &Item<'_>, lines: &mut Vec<Line>) -> Result<(), NoMemory>
    ensures ok { OnOk result (map line_of lines.new.items
        ≡ map line_of lines.old.items ++ whole (codes "item " ++ escaped (item_word (protected_of item.now))) ∷ []) }
{
    let alloc = *lines.allocator();
    let mut word = Vec::new(alloc);
    put_item_word(item, &mut word)?;
    let mut text = Vec::from_slice(alloc, b"item ")?;
    put_escaped(&word, &mut text)?;
    put_whole(text, lines)
}

// A word and what stands behind it.
fn joined(alloc: Global, word: &str, rest: &str) -> Result<Vec<u8>, NoMemory>
    ensures ok { IfOk result (λ text. text.items ≡ word.now ++ rest.now) }
{
    let mut text = Vec::from_slice(alloc, word.as_bytes())?;
    text.extend_from_slice(rest.as_bytes())?;
    Ok(text)
}

// Puts the line of the permission at the end.
fn put_permission(permission: Permission, lines: &mut Vec<Line>) -> Result<(), NoMemory>
    ensures ok { OnOk result (map line_of lines.new.items
        ≡ map line_of lines.old.items ++ whole (codes "permission " ++ permission_name permission) ∷ []) }
{
    let name = permission_name(permission);
    let text = joined(*lines.allocator(), "permission ", name)?;
    put_whole(text, lines)
}

/// Puts the four lines of the question at the end.
pub(crate) fn put_question(question: &Question<'_>, lines: &mut Vec<Line>) -> Result<(), NoMemory>
    ensures ok { OnOk result (map line_of lines.new.items
        ≡ map line_of lines.old.items ++ question_lines question.now.entry.now (asked_of question.now)) }
{
    put_who(&question.who.name, lines)?;
    put_before("target ", question.entry.name(), lines)?;
    put_item(&question.item, lines)?;
    put_permission(question.permission, lines)
}
