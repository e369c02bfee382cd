//! Texts of requests, read.

ghost use Rattle.std.specs.Prelude.{◌≡◌, ◌+◌, ◌≤◌, [], Ok, IfOk, IfErr, IfSome, IfNone, OnOk, None, length};
ghost use Rattle.ldap_msg.specs.plain_values.Answers.{Answers, IsFaultOf};
ghost use Rattle.ldif_records.specs.lines.Places.{IsPlace, records_from};
ghost use Rattle.client_core.specs.Words.{word_of};
ghost use Rattle.client_core.specs.Asks.{line_of, asked_for, worded, ask_of, asks_in, asks_of, AreSendable};
ghost use Rattle.client_core.specs.Steps.{IsPut, IsStep, of_line};

use crate::checking::bad_line;
use crate::requests::message_of;
use crate::types::{AskFault, Asked};
use crate::words::Word;
use ldif_records::{BadLine, Position, Record, RecordLine, next_record};
use std::alloc::Global;

// The request of the number, of a record with the operation and the lines behind `do`.
fn ask_word(
    alloc: Global,
    number: u32,
    given: &Record,
    word: Word,
    lines: &[RecordLine],
) -> Result<Asked, AskFault>
    ensures ok { IfOk result (λ asked. asked ≡ asked_for number given.now word lines.now) }
    ensures err { IfErr result (λ fault. line_of fault ≡ None) }
{
    let message = message_of(alloc, number, word, given.name.as_slice(), lines)?;
    Ok(Asked {
        line: given.line,
        message,
    })
}

// The request of the number, of a record with the line `do` and the lines behind it.
fn worded(
    alloc: Global,
    number: u32,
    given: &Record,
    first: &RecordLine,
    lines: &[RecordLine],
) -> Result<Asked, AskFault>
    ensures exact { Answers (λ asked. asked) line_of result
        (worded number given.now (word_of first.now.value) first.now.line lines.now) }
{
    let Some(word) = Word::of(first.value.as_slice()) else {
        return Err(AskFault::Bad { line: first.line });
    };
    if let Some(line) = bad_line(alloc, word, given, first.line, lines)? {
        return Err(AskFault::Bad { line });
    }
    ask_word(alloc, number, given, word, lines)
}

// The request of the number, of a record.
fn ask_of(alloc: Global, number: u32, given: &Record) -> Result<Asked, AskFault>
    ensures exact { Answers (λ asked. asked) line_of result (ask_of number (Ok given.now)) }
{
    match given.lines.as_slice() {
        [first, lines @ ..] => {
            if first.kind.as_slice() == b"do".as_slice() {
                worded(alloc, number, given, first, lines)
            } else {
                Err(AskFault::Bad { line: given.line })
            }
        }
        [] => Err(AskFault::Bad { line: given.line }),
    }
}

// Puts the request of a record behind the others.
fn push_ask(alloc: Global, given: &Record, asks: &mut Vec<Asked>) -> Result<(), AskFault>
    requires { length asks.old.items ≤ 67108864 }
    ensures ok { OnOk result (IsPut asks.old.items given.now asks.new.items) }
    ensures bad { IfErr result (λ fault.
        IsFaultOf (line_of fault) (ask_of (length asks.old.items + 1) (Ok given.now))) }
{
    let number = asks.len() as u32 + 1;
    let asked = ask_of(alloc, number, given)?;
    asks.push(asked)?;
    Ok(())
}

// The fault of a line that isn't one of a record.
fn misread(bad: BadLine) -> AskFault
    ensures exact { result ≡ of_line bad }
{
    match bad {
        BadLine::Bad { line, cause: _ } => AskFault::Bad { line },
        BadLine::NoMemory => AskFault::NoMemory,
    }
}

// Puts the request of the next record from a place on behind the others, if there is one, and answers the place after it.
fn ask_next(
    alloc: Global,
    text: &[u8],
    at: Position,
    asks: &mut Vec<Asked>,
) -> Result<Option<Position>, AskFault>
    requires place { IsPlace text.now at }
    requires few { length asks.old.items ≤ 67108864 }
    ensures more { IfOk result (λ next.
        IfSome next (λ to. IsStep text.now at asks.old.items to asks.new.items)) }
    ensures end { IfOk result (λ next. IfNone next (records_from text.now at ≡ [])) }
    ensures kept { IfOk result (λ next. IfNone next (asks.new.items ≡ asks.old.items)) }
    ensures bad { IfErr result (λ fault.
        IsFaultOf (line_of fault) (asks_in (length asks.old.items + 1) (records_from text.now at))) }
{
    match next_record(alloc, text, at) {
        Ok(Some((given, to))) => {
            push_ask(alloc, &given, asks)?;
            Ok(Some(to))
        }
        Ok(None) => Ok(None),
        Err(bad) => Err(misread(bad)),
    }
}

/// Reads requests, one of each record of the text (RFC 2849, as `next_record` reads them): the n-th is message n. The name
/// of a record is the target, and may be empty. The line behind it is `do` with a word, and those behind that stand in
/// this order; one with `?` may be absent. Types of lines are compared octet by octet.
///
/// - `bind`: `password` ?, empty when absent.
/// - `search`: `scope` ? (`base`, `one`, `sub`; `base` when absent); `limit` ? (0 to 2,147,483,647 in 1 to 10 digits; 0,
///   for no limit, when absent); `only` ? (`types`); `subentries` ? (`TRUE`, `FALSE`: a critical control, RFC 3672);
///   `filter` ? (RFC 4515; presence of objectClass when absent); any number of `select`.
/// - `compare`: one line, whose type and value are the assertion.
/// - `add`: at least one attribute line; neighbours of one type are one attribute.
/// - `modify`: at least one change: a line `add`, `delete` or `replace` with a type, and any number of `value`.
/// - `rename`: `newrdn`; `keep` ? (`TRUE`: the values of the old RDN stay); `newsuperior` ?.
/// - `delete`: none.
/// - `whoami` (RFC 4532) and `unbind`: none, and the name is empty.
///
/// `Bad` comes exactly where a record can't be read so, or at all, and the first such record decides. Its line is the one
/// that `next_record` refuses; or that of the name, where `do` isn't behind it, or it should be empty; or the line `do`,
/// where its word is none of these, `newrdn` is missing, or all lines are where one is needed; or the first line that can't
/// stand where it does, or whose value isn't one that it may have. `NoMemory` may come in place of any answer.
#[tactic(auto, unfolding(crate::specs::Asks::asks_of))]
pub fn read_asks(alloc: Global, text: &[u8]) -> Result<Vec<Asked>, AskFault>
    requires { length text.now ≤ 67108864 }
    ensures exact { Answers (λ asks. asks.items) line_of result (asks_of text.now) }
    ensures sendable { IfOk result (λ asks. AreSendable asks.items) }
{
    let mut asks = Vec::new(alloc);
    let mut at = Position { offset: 0, line: 1 };
    while let Some(next) = ask_next(alloc, text, at, &mut asks)? {
        at = next;
    }
    Ok(asks)
}
