//! The request that a record asks for.

ghost use Rattle.std.specs.Prelude.{◌≡◌, IfOk};
ghost use Rattle.client_core.specs.declared.words.Word.TheVariants as word;
ghost use Rattle.client_core.specs.Requests.{search_of, asserted_by, compare_of, delete_of, who_am_i, request_of, controls_of, message_of};

use crate::changes::{attributes_of, changes_of};
use crate::filters::filter_by;
use crate::picking::{
    limit_number, octets_at, octets_of, scope_named, subentries_control, text_of, value_of,
    values_of,
};
use crate::types::NoMemory;
use crate::words::Word;
use ldap_msg::plain_values::OneOrMany;
use ldap_msg::{
    AddRequest, Auth, BindRequest, CompareRequest, Control, DeleteRequest, Message, ModifyRequest,
    RenameRequest, Request, SearchRequest, Update,
};
use ldif_records::RecordLine;
use std::alloc::Global;

// A bind.
fn bind(alloc: Global, name: &[u8], lines: &[RecordLine]) -> Result<Request, NoMemory>
    ensures ok { IfOk result (λ request. request ≡ request_of word.Bind name.now lines.now) }
{
    let name = octets_of(alloc, name)?;
    let password = octets_of(alloc, text_of(b"password", lines))?;
    Ok(Request::Bind(BindRequest {
        version: 3,
        name,
        auth: Auth::Simple(password),
    }))
}

// A search.
fn search(alloc: Global, name: &[u8], lines: &[RecordLine]) -> Result<SearchRequest, NoMemory>
    ensures ok { IfOk result (λ search. search ≡ search_of name.now lines.now) }
{
    let base = octets_of(alloc, name)?;
    let selection = values_of(alloc, b"select", lines)?;
    let filter = filter_by(alloc, value_of(b"filter", lines))?;
    Ok(SearchRequest {
        base,
        scope: scope_named(text_of(b"scope", lines)),
        size: limit_number(text_of(b"limit", lines)),
        kinds_only: value_of(b"only", lines).is_some(),
        filter,
        selection,
    })
}

// A compare with the first line.
fn compare(alloc: Global, name: &[u8], line: &RecordLine) -> Result<CompareRequest, NoMemory>
    ensures ok { IfOk result (λ compare. compare ≡ asserted_by name.now line.now) }
{
    let name = octets_of(alloc, name)?;
    let kind = octets_of(alloc, line.kind.as_slice())?;
    let value = octets_of(alloc, line.value.as_slice())?;
    Ok(CompareRequest { name, kind, value })
}

// A compare.
fn compare_of(alloc: Global, name: &[u8], lines: &[RecordLine]) -> Result<CompareRequest, NoMemory>
    ensures ok { IfOk result (λ compare. compare ≡ compare_of name.now lines.now) }
{
    match lines {
        [line, ..] => compare(alloc, name, line),
        [] => Ok(CompareRequest {
            name: octets_of(alloc, name)?,
            kind: octets_of(alloc, b"")?,
            value: octets_of(alloc, b"")?,
        }),
    }
}

// An add.
fn add(alloc: Global, name: &[u8], lines: &[RecordLine]) -> Result<Request, NoMemory>
    ensures ok { IfOk result (λ request. request ≡ request_of word.Add name.now lines.now) }
{
    let name = octets_of(alloc, name)?;
    let attributes = attributes_of(alloc, lines)?;
    Ok(Request::Update(Update::Add(AddRequest { name, attributes })))
}

// A modify.
fn modify(alloc: Global, name: &[u8], lines: &[RecordLine]) -> Result<Request, NoMemory>
    ensures ok { IfOk result (λ request. request ≡ request_of word.Modify name.now lines.now) }
{
    let name = octets_of(alloc, name)?;
    let changes = changes_of(alloc, lines)?;
    Ok(Request::Update(Update::Modify(ModifyRequest { name, changes })))
}

// A rename.
fn rename(alloc: Global, name: &[u8], lines: &[RecordLine]) -> Result<Request, NoMemory>
    ensures ok { IfOk result (λ request. request ≡ request_of word.Rename name.now lines.now) }
{
    let name = octets_of(alloc, name)?;
    let new_rdn = octets_of(alloc, text_of(b"newrdn", lines))?;
    let superior = octets_at(alloc, b"newsuperior", lines)?;
    Ok(Request::Update(Update::Rename(RenameRequest {
        name,
        new_rdn,
        delete_old: value_of(b"keep", lines).is_none(),
        superior,
    })))
}

// A delete.
fn delete(alloc: Global, name: &[u8]) -> Result<Request, NoMemory>
    ensures ok { IfOk result (λ request. request ≡ delete_of name.now) }
{
    let name = octets_of(alloc, name)?;
    Ok(Request::Update(Update::Delete(DeleteRequest { name })))
}

// The question who the session is (RFC 4532).
fn who_am_i(alloc: Global) -> Result<Request, NoMemory>
    ensures ok { IfOk result (λ request. request ≡ who_am_i) }
{
    let name = octets_of(alloc, b"1.3.6.1.4.1.4203.1.11.3")?;
    Ok(Request::Extended(name, None))
}

// The request of an operation on the target, by the lines behind `do`.
fn request_of(
    alloc: Global,
    word: Word,
    name: &[u8],
    lines: &[RecordLine],
) -> Result<Request, NoMemory>
    ensures ok { IfOk result (λ request. request ≡ request_of word name.now lines.now) }
{
    match word {
        Word::Bind => bind(alloc, name, lines),
        Word::Search => Ok(Request::Search(search(alloc, name, lines)?)),
        Word::Compare => Ok(Request::Compare(compare_of(alloc, name, lines)?)),
        Word::Add => add(alloc, name, lines),
        Word::Modify => modify(alloc, name, lines),
        Word::Rename => rename(alloc, name, lines),
        Word::Delete => delete(alloc, name),
        Word::WhoAmI => who_am_i(alloc),
        Word::Unbind => Ok(Request::Unbind),
    }
}

// Its controls.
fn controls_of(
    alloc: Global,
    word: Word,
    lines: &[RecordLine],
) -> Result<OneOrMany<Control>, NoMemory>
    ensures ok { IfOk result (λ controls. controls ≡ controls_of word lines.now) }
{
    match word {
        Word::Search => subentries_control(alloc, lines),
        Word::Bind
        | Word::Compare
        | Word::Add
        | Word::Modify
        | Word::Rename
        | Word::Delete
        | Word::WhoAmI
        | Word::Unbind => Ok(OneOrMany::from_vec(Vec::new(alloc))),
    }
}

/// The message of a number, above 0 and at most 2,147,483,647, with the request of an operation on the target, by the
/// lines behind `do`.
pub(crate) fn message_of(
    alloc: Global,
    number: u32,
    word: Word,
    name: &[u8],
    lines: &[RecordLine],
) -> Result<Message, NoMemory>
    ensures ok { IfOk result (λ message. message ≡ message_of number word name.now lines.now) }
{
    let controls = controls_of(alloc, word, lines)?;
    let request = request_of(alloc, word, name, lines)?;
    Ok(Message {
        id: number,
        request,
        controls,
    })
}
