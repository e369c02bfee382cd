//! The records of changes, written.

ghost use Rattle.std.specs.Prelude.{◌≡◌, ◌++◌, [], OnOk, OnErr};
ghost use Rattle.std.specs.List.{flat_map};
ghost use Rattle.whole_blocks.specs.Blocks.{ended};
ghost use Rattle.change_records.specs.Written.{row, value_rows, operation_word, change_rows, flag_word, superior_rows, rename_rows, record_rows, lines_of, text_of, record_text};

use crate::types::NoMemory;
use ldap_msg::plain_values::Octets;
use ldap_msg::{
    AddRequest, Change, DeleteRequest, KindValues, ModifyOperation, ModifyRequest, RenameRequest,
    Request, Update,
};
use ldif_records::put_line;

// Writes a line of a type and a value.
fn put_row(out: &mut Vec<u8>, kind: &[u8], value: &[u8]) -> Result<(), NoMemory>
    ensures { OnOk result (out.new.items ≡ out.old.items ++ ended (row kind.now value.now)) }
{
    put_line(out, kind, value)
}

// Writes a line for each value of an attribute.
fn put_values(out: &mut Vec<u8>, given: &KindValues) -> Result<(), NoMemory>
    ensures { OnOk result (out.new.items ≡ out.old.items ++ flat_map ended (value_rows given.now)) }
{
    for value in given.values.as_slice() {
        put_row(out, given.kind.as_slice(), value.as_slice())?;
    }
    Ok(())
}

// The word for an operation on a type.
fn operation_word(operation: ModifyOperation) -> &'static [u8]
    ensures { result.now ≡ operation_word operation }
{
    match operation {
        ModifyOperation::Add => b"add",
        ModifyOperation::Delete => b"delete",
        ModifyOperation::Replace | ModifyOperation::Other(_) => b"replace",
    }
}

// Writes the lines of one change of a modify.
fn put_change(out: &mut Vec<u8>, change: &Change) -> Result<(), NoMemory>
    ensures { OnOk result (out.new.items ≡ out.old.items ++ flat_map ended (change_rows change.now)) }
{
    put_row(
        out,
        operation_word(change.operation),
        change.body.kind.as_slice(),
    )?;
    put_values(out, &change.body)?;
    out.extend_from_slice(b"-\n")
}

// Writes the lines of the changes of a modify.
fn put_changes(out: &mut Vec<u8>, changes: &[Change]) -> Result<(), NoMemory>
    ensures { OnOk result
        (out.new.items ≡ out.old.items ++ flat_map ended (flat_map change_rows changes.now)) }
{
    for change in changes {
        put_change(out, change)?;
    }
    Ok(())
}

// Writes the lines of the attributes of an add.
fn put_attributes(out: &mut Vec<u8>, attributes: &[KindValues]) -> Result<(), NoMemory>
    ensures { OnOk result
        (out.new.items ≡ out.old.items ++ flat_map ended (flat_map value_rows attributes.now)) }
{
    for given in attributes {
        put_values(out, given)?;
    }
    Ok(())
}

// Writes the line of the new superior, where there is one.
fn put_superior(out: &mut Vec<u8>, superior: &Option<Octets>) -> Result<(), NoMemory>
    ensures { OnOk result (out.new.items ≡ out.old.items ++ flat_map ended (superior_rows superior.now)) }
{
    if let Some(superior) = superior {
        put_row(out, b"newsuperior", superior.as_slice())?;
    }
    Ok(())
}

// The word for whether the values of the old RDN go.
fn flag_word(delete_old: bool) -> &'static [u8]
    ensures { result.now ≡ flag_word delete_old }
{
    if delete_old { b"1" } else { b"0" }
}

// Writes the lines of a new name.
fn put_rename(out: &mut Vec<u8>, rename: &RenameRequest) -> Result<(), NoMemory>
    ensures { OnOk result (out.new.items ≡ out.old.items
        ++ flat_map ended (rename_rows rename.now.new_rdn rename.now.delete_old rename.now.superior)) }
{
    put_row(out, b"newrdn", rename.new_rdn.as_slice())?;
    put_row(out, b"deleteoldrdn", flag_word(rename.delete_old))?;
    put_superior(out, &rename.superior)
}

// Writes the first two lines of a record: the name and the kind of the change.
fn put_front(out: &mut Vec<u8>, name: &Octets, word: &[u8]) -> Result<(), NoMemory>
    ensures { OnOk result
        (out.new.items ≡ out.old.items ++ flat_map ended (record_rows name.now word.now [])) }
{
    put_row(out, b"dn", name.as_slice())?;
    put_row(out, b"changetype", word)
}

// Writes the record of a modify.
fn put_modify(out: &mut Vec<u8>, modify: &ModifyRequest) -> Result<(), NoMemory>
    ensures { OnOk result
        (out.new.items ≡ out.old.items ++ text_of (lines_of (Request.Update (Update.Modify modify.now)))) }
{
    put_front(out, &modify.name, b"modify")?;
    put_changes(out, modify.changes.as_slice())?;
    out.extend_from_slice(b"\n")
}

// Writes the record of an add.
fn put_add(out: &mut Vec<u8>, add: &AddRequest) -> Result<(), NoMemory>
    ensures { OnOk result
        (out.new.items ≡ out.old.items ++ text_of (lines_of (Request.Update (Update.Add add.now)))) }
{
    put_front(out, &add.name, b"add")?;
    put_attributes(out, add.attributes.as_slice())?;
    out.extend_from_slice(b"\n")
}

// Writes the record of a delete.
fn put_delete(out: &mut Vec<u8>, delete: &DeleteRequest) -> Result<(), NoMemory>
    ensures { OnOk result
        (out.new.items ≡ out.old.items ++ text_of (lines_of (Request.Update (Update.Delete delete.now)))) }
{
    put_front(out, &delete.name, b"delete")?;
    out.extend_from_slice(b"\n")
}

// Writes the record of a modify DN.
fn put_modify_dn(out: &mut Vec<u8>, rename: &RenameRequest) -> Result<(), NoMemory>
    ensures { OnOk result
        (out.new.items ≡ out.old.items ++ text_of (lines_of (Request.Update (Update.Rename rename.now)))) }
{
    put_front(out, &rename.name, b"modrdn")?;
    put_rename(out, rename)?;
    out.extend_from_slice(b"\n")
}

// Writes the record of a request, or a part of it where memory is refused.
#[tactic(auto, unfolding(crate::specs::Written::record_text))]
fn put_request(out: &mut Vec<u8>, request: &Request) -> Result<(), NoMemory>
    ensures { OnOk result (out.new.items ≡ out.old.items ++ record_text request.now) }
{
    match request {
        Request::Update(Update::Modify(modify)) => put_modify(out, modify),
        Request::Update(Update::Add(add)) => put_add(out, add),
        Request::Update(Update::Delete(delete)) => put_delete(out, delete),
        Request::Update(Update::Rename(rename)) => put_modify_dn(out, rename),
        _ => Ok(()),
    }
}

/// Appends the record of a request that changes something (RFC 2849, ldif-change-record), with an empty line behind it: a
/// line `dn` with the name and a line `changetype`, and then the lines of the attributes of an add, of the changes of a
/// modify, each with a hyphen behind it, or of the new name of a modify DN. Names, types and values are the request's
/// octets, each as it is or in base64, as `put_entry` of `ldif_records` writes values. Of a request that changes nothing
/// nothing is written.
///
/// The error comes where memory is refused; `out` is then as before.
pub fn put_record(out: &mut Vec<u8>, request: &Request) -> Result<(), NoMemory>
    ensures ok { OnOk result (out.new.items ≡ out.old.items ++ record_text request.now) }
    ensures err { OnErr result (out.new.items ≡ out.old.items) }
{
    let mut text = Vec::new(*out.allocator());
    put_request(&mut text, request)?;
    out.extend_from_slice(&text)
}
