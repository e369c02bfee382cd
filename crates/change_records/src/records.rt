//! The change that a record says.

ghost use Rattle.std.specs.Prelude.{◌≡◌, [], ◌==◌, length};
ghost use Rattle.dir_tree.specs.plain_values.Answers.{Answers};
ghost use Rattle.ldif_records.specs.reading.Faults.{fault_of};
ghost use Rattle.change_records.specs.Reading.{change_of_kind, change_named, change_in, add_in, delete_in, modify_in, modify_dn_in};

use crate::adds::attributes_in;
use crate::lines::{misplaced, nothing_in, value_line};
use crate::modifies::changes_in;
use crate::renames::rename_in;
use ldap_msg::plain_values::Octets;
use ldap_msg::{AddRequest, DeleteRequest, ModifyRequest, Request, Update};
use ldif_records::{BadLine, Unfolded, name_line};
use std::alloc::Global;

// The add of the name that lines say.
fn add_in(alloc: Global, name: Octets, lines: &[Unfolded<'_>]) -> Result<Request, BadLine>
    ensures { Answers (λ change. change) fault_of result (add_in name lines.now) }
{
    match attributes_in(alloc, lines) {
        Ok(attributes) => Ok(Request::Update(Update::Add(AddRequest { name, attributes }))),
        Err(bad) => Err(bad),
    }
}

// The delete of the name, where no line is left.
fn delete_in(name: Octets, lines: &[Unfolded<'_>]) -> Result<Request, BadLine>
    ensures { Answers (λ change. change) fault_of result (delete_in name lines.now) }
{
    match nothing_in(lines) {
        Ok(_) => Ok(Request::Update(Update::Delete(DeleteRequest { name }))),
        Err(bad) => Err(bad),
    }
}

// The modify of the name that lines say.
fn modify_in(
    alloc: Global,
    name: Octets,
    number: u64,
    lines: &[Unfolded<'_>],
) -> Result<Request, BadLine>
    ensures { Answers (λ change. change) fault_of result (modify_in name number lines.now) }
{
    match changes_in(alloc, number, lines) {
        Ok(changes) => Ok(Request::Update(Update::Modify(ModifyRequest { name, changes }))),
        Err(bad) => Err(bad),
    }
}

// The modify DN of the name that lines say.
fn modify_dn_in(
    alloc: Global,
    name: Octets,
    number: u64,
    lines: &[Unfolded<'_>],
) -> Result<Request, BadLine>
    ensures { Answers (λ change. change) fault_of result (modify_dn_in name number lines.now) }
{
    match rename_in(alloc, name, number, lines) {
        Ok(rename) => Ok(Request::Update(Update::Rename(rename))),
        Err(bad) => Err(bad),
    }
}

// The change of the name, of the kind that the line of the number says, with the lines behind it.
fn change_of_kind(
    alloc: Global,
    name: Octets,
    number: u64,
    word: &[u8],
    rest: &[Unfolded<'_>],
) -> Result<Request, BadLine>
    ensures { Answers (λ change. change) fault_of result (change_of_kind name number word.now rest.now) }
{
    if word == b"add".as_slice() {
        return add_in(alloc, name, rest);
    }
    if word == b"delete".as_slice() {
        return delete_in(name, rest);
    }
    if word == b"modify".as_slice() {
        return modify_in(alloc, name, number, rest);
    }
    if word == b"modrdn".as_slice() {
        return modify_dn_in(alloc, name, number, rest);
    }
    Err(misplaced(number))
}

// The change of the name that lines say.
fn change_named(
    alloc: Global,
    name: Octets,
    number: u64,
    lines: &[Unfolded<'_>],
) -> Result<Request, BadLine>
    ensures { Answers (λ change. change) fault_of result (change_named name number lines.now) }
{
    let Some((line, rest)) = lines.split_first() else {
        return Err(misplaced(number));
    };
    match value_line(alloc, b"changetype", line) {
        Ok(word) => change_of_kind(alloc, name, line.number(), word.as_slice(), rest),
        Err(bad) => Err(bad),
    }
}

/// The change that the lines of a record say.
#[tactic(auto, unfolding(crate::specs::Reading::change_in))]
pub(crate) fn change_in(
    alloc: Global,
    first: &Unfolded<'_>,
    rest: &[Unfolded<'_>],
) -> Result<Request, BadLine>
    ensures { Answers (λ change. change) fault_of result (change_in first.now rest.now) }
{
    match name_line(alloc, rest.is_empty(), first) {
        Ok(name) => change_named(alloc, name, first.number(), rest),
        Err(bad) => Err(bad),
    }
}
