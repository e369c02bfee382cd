//! An entry of a search written as it is read from the tree, with no copy of its values before (RFC 4511 4.5.2).

ghost use Rattle.std.specs.Prelude.{◌≡◌, ◌++◌, ◌∷◌, [], OnOk, OnErr, map, if◌then◌else◌};
ghost use Rattle.dir_tree.specs.schema_tables.Attributes.{name_of};
ghost use Rattle.ldap_msg.specs.ber_layout.Layouts.{writes};
ghost use Rattle.ldap_msg.specs.ber_layout.Layouts.Layout.{End, Each};
ghost use Rattle.ldap_msg.specs.ber_layout.Spellings.{Extends, element_octets};
ghost use Rattle.ldap_msg.specs.operations.Operations.{response_tag};
ghost use Rattle.ldap_msg.specs.Attributes.{attribute_layout, attribute_parts};
ghost use Rattle.ldap_msg.specs.Replies.{response_for, reply_layout, reply_parts, reply_content, reply_octets, IsShortReply};
ghost use Rattle.page_core.specs.read_model.Choosing.{readable_values, sent_attribute, sent_attributes};
ghost use Rattle.op_read.specs.Choices.{sent_of};
ghost use Rattle.op_read.specs.Seeing.{row_in};
ghost use Rattle.op_read.specs.Sending.{sent_entries};
ghost use Rattle.op_read.specs.Short.{Puts};
ghost use Rattle.op_read.specs.Writing.{values_octets, attributes_octets, entry_of};

use crate::choosing::{Selection, is_chosen};
use crate::sending::Search;
use acdf_filters::Item;
use acdf_filters::aci_item::Permission;
use dir_tree::NoMemory;
use dir_tree::dn_names::Value;
use dir_tree::schema_tables::{AttrId, row};
use directory::{Dir, Target, printed};
use ldap_msg::ber_layout::{enclose, put_element, put_number};
use std::alloc::Global;

// The name of the type as the table spells it.
fn type_name(kind: AttrId) -> &'static str
    ensures exact { result.now ≡ name_of kind.0 }
{
    match row(kind) {
        Some(row) => row.name,
        None => "",
    }
}

// Appends the values that may be read.
fn put_values<D: Dir>(
    target: &Target<'_, '_, D>,
    kind: AttrId,
    values: &[Value],
    out: &mut Vec<u8>,
) -> Result<(), NoMemory>
    ensures ok { OnOk result (out.new.items ≡ out.old.items ++ values_octets (readable_values
        (row_in (D.rows target.now.asking.now.dir.now) target.now.asking.now.who.now target.now.entry.now)
        (record { kind = kind.0; values = values.now }))) }
    ensures kept { Extends out.old.items out.new.items }
{
    for value in values {
        if target.allows(Item::Value(kind, value), Permission::Read) {
            put_element(out, 0x04, value.octets())?;
        }
    }
    Ok(())
}

// Appends the set of the values that are sent: of none where types alone are asked for.
fn put_set<D: Dir>(
    target: &Target<'_, '_, D>,
    kinds_only: bool,
    kind: AttrId,
    values: &[Value],
    out: &mut Vec<u8>,
) -> Result<(), NoMemory>
    ensures ok { OnOk result (out.new.items ≡ out.old.items ++ element_octets 0x31
        (if kinds_only then [] else values_octets (readable_values
        (row_in (D.rows target.now.asking.now.dir.now) target.now.asking.now.who.now target.now.entry.now)
        (record { kind = kind.0; values = values.now })))) }
    ensures kept { Extends out.old.items out.new.items }
{
    if kinds_only {
        return put_element(out, 0x31, &[]);
    }
    let start = out.len();
    put_values(target, kind, values, out)?;
    enclose(out, 0x31, start)
}

// Appends the attribute's type, and the values that are sent.
fn put_parts<D: Dir>(
    target: &Target<'_, '_, D>,
    kinds_only: bool,
    kind: AttrId,
    values: &[Value],
    out: &mut Vec<u8>,
) -> Result<(), NoMemory>
    ensures ok { OnOk result (out.new.items ≡ out.old.items ++ writes attribute_layout
        (attribute_parts (sent_attribute kinds_only
        (row_in (D.rows target.now.asking.now.dir.now) target.now.asking.now.who.now target.now.entry.now)
        (record { kind = kind.0; values = values.now })))) }
    ensures kept { Extends out.old.items out.new.items }
{
    put_element(out, 0x04, type_name(kind).as_bytes())?;
    put_set(target, kinds_only, kind, values, out)
}

// Appends the attribute, if it is sent; the decision is taken last.
fn put_attribute<D: Dir>(
    target: &Target<'_, '_, D>,
    selection: Selection<'_>,
    kind: AttrId,
    values: &[Value],
    out: &mut Vec<u8>,
) -> Result<(), NoMemory>
    ensures ok { OnOk result (out.new.items ≡ out.old.items ++ attributes_octets
        (sent_of selection.entry.choices.now selection.entry.kinds_only
        (row_in (D.rows target.now.asking.now.dir.now) target.now.asking.now.who.now target.now.entry.now)
        (record { kind = kind.0; values = values.now }))) }
    ensures kept { Extends out.old.items out.new.items }
{
    if is_chosen(selection.choices, kind) && target.allows(Item::Kind(kind), Permission::Read) {
        let start = out.len();
        put_parts(target, selection.kinds_only, kind, values, out)?;
        return enclose(out, 0x30, start);
    }
    Ok(())
}

// Appends the attributes that are sent.
fn put_attributes<D: Dir>(
    search: &Search<'_>,
    target: &Target<'_, '_, D>,
    out: &mut Vec<u8>,
) -> Result<(), NoMemory>
    ensures ok { OnOk result (out.new.items ≡ out.old.items
        ++ writes (Each 0x30 attribute_layout End) (
          map attribute_parts
              (sent_attributes search.now.request.now.selection search.now.request.now.kinds_only
              (row_in (D.rows target.now.asking.now.dir.now) target.now.asking.now.who.now target.now.entry.now)),
          tt,
        )) }
    ensures kept { Extends out.old.items out.new.items }
{
    for (kind, values) in target.entry.attributes() {
        put_attribute(target, search.selection, kind, values, out)?;
    }
    Ok(())
}

// Appends the list of the attributes that are sent.
fn put_list<D: Dir>(
    search: &Search<'_>,
    target: &Target<'_, '_, D>,
    out: &mut Vec<u8>,
) -> Result<(), NoMemory>
    ensures ok { OnOk result (out.new.items ≡ out.old.items ++ element_octets 0x30
        (writes (Each 0x30 attribute_layout End) (
          map attribute_parts
              (sent_attributes search.now.request.now.selection search.now.request.now.kinds_only
              (row_in (D.rows target.now.asking.now.dir.now) target.now.asking.now.who.now target.now.entry.now)),
          tt,
        ))) }
    ensures kept { Extends out.old.items out.new.items }
{
    let start = out.len();
    put_attributes(search, target, out)?;
    enclose(out, 0x30, start)
}

// Appends the entry's name and its attributes.
fn put_content<D: Dir>(
    alloc: Global,
    search: &Search<'_>,
    target: &Target<'_, '_, D>,
    out: &mut Vec<u8>,
) -> Result<(), NoMemory>
    ensures ok { OnOk result (out.new.items ≡ out.old.items ++ reply_content
        (entry_of search.now.request.now
        (row_in (D.rows target.now.asking.now.dir.now) target.now.asking.now.who.now target.now.entry.now))) }
    ensures kept { Extends out.old.items out.new.items }
{
    let name = printed(alloc, target.entry.name())?;
    put_element(out, 0x04, name.as_slice())?;
    put_list(search, target, out)
}

// Appends the response.
fn put_response<D: Dir>(
    alloc: Global,
    search: &Search<'_>,
    target: &Target<'_, '_, D>,
    out: &mut Vec<u8>,
) -> Result<(), NoMemory>
    ensures ok { OnOk result (out.new.items ≡ out.old.items ++ element_octets
        (response_tag (response_for
        (entry_of search.now.request.now
        (row_in (D.rows target.now.asking.now.dir.now) target.now.asking.now.who.now target.now.entry.now))))
        (reply_content
        (entry_of search.now.request.now
        (row_in (D.rows target.now.asking.now.dir.now) target.now.asking.now.who.now target.now.entry.now)))) }
    ensures kept { Extends out.old.items out.new.items }
{
    let start = out.len();
    put_content(alloc, search, target, out)?;
    enclose(out, 0x64, start)
}

// Appends the message's number and the response.
fn put_components<D: Dir>(
    alloc: Global,
    search: &Search<'_>,
    target: &Target<'_, '_, D>,
    out: &mut Vec<u8>,
) -> Result<(), NoMemory>
    ensures ok { OnOk result (out.new.items ≡ out.old.items ++ writes reply_layout
        (reply_parts search.now.id
        (entry_of search.now.request.now
        (row_in (D.rows target.now.asking.now.dir.now) target.now.asking.now.who.now target.now.entry.now)))) }
    ensures kept { Extends out.old.items out.new.items }
{
    put_number(out, 0x02, search.id)?;
    put_response(alloc, search, target, out)
}

// Appends the message.
#[tactic(auto, unfolding(ldap_msg::specs::Replies::reply_octets))]
fn put_message<D: Dir>(
    alloc: Global,
    search: &Search<'_>,
    target: &Target<'_, '_, D>,
    out: &mut Vec<u8>,
) -> Result<(), NoMemory>
    ensures ok { OnOk result (out.new.items ≡ out.old.items
        ++ reply_octets search.now.id (entry_of search.now.request.now
        (row_in (D.rows target.now.asking.now.dir.now) target.now.asking.now.who.now target.now.entry.now))) }
    ensures short { OnOk result (IsShortReply search.now.id (entry_of search.now.request.now
        (row_in (D.rows target.now.asking.now.dir.now) target.now.asking.now.who.now target.now.entry.now))) }
    ensures kept { Extends out.old.items out.new.items }
{
    let start = out.len();
    put_components(alloc, search, target, out)?;
    enclose(out, 0x30, start)
}

/// Appends the entry: the attributes that the search chooses and whose types may be read, with the values that may be
/// read. After the error, want of memory, or a content of 2^32 octets or more, `out` is as before.
pub(crate) fn put_entry<D: Dir>(
    alloc: Global,
    search: &Search<'_>,
    target: &Target<'_, '_, D>,
    out: &mut Vec<u8>,
) -> Result<(), NoMemory>
    ensures ok { OnOk result (Puts search.now.id (sent_entries search.now.request.now
        (row_in (D.rows target.now.asking.now.dir.now) target.now.asking.now.who.now target.now.entry.now ∷ []))
        out.old.items out.new.items) }
    ensures kept { Extends out.old.items out.new.items }
    ensures err { OnErr result (out.new.items ≡ out.old.items) }
{
    let before = out.len();
    match put_message(alloc, search, target, out) {
        Ok(()) => Ok(()),
        Err(fault) => {
            out.truncate(before);
            Err(fault)
        }
    }
}
