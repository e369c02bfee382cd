//! The attributes of an add request, read.

ghost use Rattle.std.specs.Prelude.{◌≡◌, ◌≢◌, ◌||◌, [], Some, Ok, IfOk, IfErr, OnOk, false};
ghost use Rattle.std.specs.List.{list_any};
ghost use Rattle.dir_tree.specs.schema_tables.Attributes.{IsAttrId};
ghost use Rattle.dir_tree.specs.Entry.{has_kind, is_match};
ghost use Rattle.ldap_msg.specs.plain_values.Answers.{Answers, IsFaultOf};
ghost use Rattle.op_add_delete.specs.reading.NewEntries.{fitting, read_value, read_values, read_attribute, read_filled, repeats, lacks_values, read_attributes};
ghost use Rattle.op_add_delete.specs.reading.Reading.{cause_of, attribute_of};
ghost use Rattle.op_add_delete.specs.reading.Steps.{entry_from, IsPut, IsNewEntry};

use crate::fault::Fault;
use crate::twice::repeats;
use dir_tree::dn_names::{Dn, MOST_OCTETS, Value, make_value};
use dir_tree::match_rules::PrepareFault;
use dir_tree::schema_tables::{AttrId, attr_named};
use dir_tree::{Entry, NoMemory};
use ldap_msg::plain_values::Octets;
use ldap_msg::{KindValues, ResultCode};
use ldif_load::add_own_values;
use std::alloc::Global;

/// A type and values of it as a request gives them, read: in the order of the request, and some of them may match.
#[derive(Drop)]
pub struct Given {
    pub kind: AttrId,
    pub values: Vec<Value>,
}

// The value, unless its octets are too many.
fn fitting(octets: &[u8], value: Value) -> Result<Value, Fault>
    ensures exact { Answers (λ value. value) cause_of result (fitting octets.now (Some value)) }
{
    if octets.len() > MOST_OCTETS {
        return Err(Fault::Refused(ResultCode::ConstraintViolation));
    }
    Ok(value)
}

// The value of the type that the octets are.
fn read_value(alloc: Global, kind: AttrId, octets: &[u8]) -> Result<Value, Fault>
    requires { IsAttrId kind.0 }
    ensures exact { Answers (λ value. value) cause_of result (read_value kind.0 octets.now) }
{
    match make_value(alloc, kind, octets.to_vec(alloc)?) {
        Ok(value) => fitting(octets, value),
        Err(PrepareFault::NotOfSyntax) => {
            Err(Fault::Refused(ResultCode::InvalidAttributeSyntax))
        }
        Err(PrepareFault::NoMemory) => Err(Fault::NoMemory),
    }
}

// The values of the type, in order.
fn read_values(alloc: Global, kind: AttrId, given: &[Octets]) -> Result<Vec<Value>, Fault>
    requires { IsAttrId kind.0 }
    ensures exact { Answers (λ values. values.items) cause_of result (read_values kind.0 given.now) }
{
    let mut values = Vec::new(alloc);
    for octets in given {
        match read_value(alloc, kind, octets.as_slice()) {
            Ok(value) => values.push(value)?,
            Err(fault) => return Err(fault),
        }
    }
    Ok(values)
}

/// A type and values of a request, read (RFC 4511 4.1.7). Each refusal comes in exactly one case: undefinedAttributeType
/// where the type is none of the schema's, and then, for the first value that is none, invalidAttributeSyntax where the
/// octets are not of the type's syntax, and constraintViolation where they are more than 65,536. Values that match are no
/// fault here; there may be none at all. `NoMemory` may come before these.
pub fn read_attribute(alloc: Global, given: &KindValues) -> Result<Given, Fault>
    ensures exact { Answers attribute_of cause_of result (read_attribute given.now) }
    ensures known { IfOk result (λ read. IsAttrId read.kind.0) }
{
    let Some(kind) = attr_named(given.kind.as_slice()) else {
        return Err(Fault::Refused(ResultCode::UndefinedAttributeType));
    };
    match read_values(alloc, kind, given.values.as_slice()) {
        Ok(values) => Ok(Given { kind, values }),
        Err(fault) => Err(fault),
    }
}

// Whether the type of the attribute is the entry's already, or two of the values match.
fn comes_twice(alloc: Global, entry: &Entry, given: &Given) -> Result<bool, NoMemory>
    ensures ok { IfOk result (λ found. found
        ≡ (has_kind given.now.kind.0 entry.now.attributes || repeats is_match given.now.values.items)) }
{
    if entry.has_kind(given.kind) {
        return Ok(true);
    }
    repeats(alloc, &given.values)
}

// Puts the attribute last, unless a type or a value came twice, and keeps that one did. After the error, want of memory,
// nothing was put.
fn put_attribute(
    alloc: Global,
    entry: &mut Entry,
    twice: &mut bool,
    given: Given,
) -> Result<(), NoMemory>
    requires filled { given.values.items ≢ [] }
    ensures ok { OnOk result (IsPut twice.old entry.old (attribute_of given) twice.new entry.new) }
{
    if *twice {
        return Ok(());
    }
    let found = comes_twice(alloc, entry, &given)?;
    if found {
        *twice = true;
        return Ok(());
    }
    entry.set_values(given.kind, given.values)
}

// The attributes of a request, each of which has values, in an entry of the name.
fn read_each(alloc: Global, name: Dn, given: &[KindValues]) -> Result<Entry, Fault>
    requires filled { list_any lacks_values given.now ≡ false }
    ensures exact { Answers (λ entry. entry) cause_of result (entry_from name (read_filled given.now)) }
{
    let mut entry = Entry::new(alloc, name)?;
    let mut twice = false;
    for item in given {
        match read_attribute(alloc, item) {
            Ok(attribute) => put_attribute(alloc, &mut entry, &mut twice, attribute)?,
            Err(fault) => return Err(fault),
        }
    }
    entry.is_good();
    if twice {
        return Err(Fault::Refused(ResultCode::AttributeOrValueExists));
    }
    Ok(entry)
}

// Whether no value is given.
fn lacks_values(given: &KindValues) -> bool
    ensures exact { result ≡ lacks_values given.now }
{
    given.values.is_empty()
}

// Whether an attribute has no values.
fn any_lacks_values(given: &[KindValues]) -> bool
    ensures exact { result ≡ list_any lacks_values given.now }
{
    given.iter().any(|item| lacks_values(item))
}

// The entry of the name with the attributes of a request, in their order.
#[tactic(auto, unfolding(crate::specs::reading::NewEntries::read_attributes))]
fn read_attributes(alloc: Global, name: Dn, given: &[KindValues]) -> Result<Entry, Fault>
    ensures exact { Answers (λ entry. entry) cause_of result (entry_from name (read_attributes given.now)) }
{
    if any_lacks_values(given) {
        return Err(Fault::Refused(ResultCode::ProtocolError));
    }
    read_each(alloc, name, given)
}

/// The entry that the request describes: its attributes in their order, and last the values of its own RDN that they
/// leave out.
pub fn new_entry(alloc: Global, name: Dn, given: &[KindValues]) -> Result<Entry, Fault>
    ensures ok { IfOk result (λ entry. IsNewEntry name given.now entry) }
    ensures refused { IfErr result (λ fault. IsFaultOf (cause_of fault) (read_attributes given.now)) }
{
    let mut entry = read_attributes(alloc, name, given)?;
    add_own_values(alloc, &mut entry)?;
    Ok(entry)
}
