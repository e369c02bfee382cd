//! What a line of a certificate's text is, by its form.

ghost use Rattle.std.specs.Prelude.{◌≡◌, false, IfOk};
ghost use Rattle.std.specs.Int.{is_in_range};
ghost use Rattle.std.specs.Option.{option_map, option_map_or};
ghost use Rattle.dir_tree.specs.dn_names.value.Values.{of_text};
ghost use Rattle.explanation.specs.ItemWords.{item_of};
ghost use Rattle.explanation.specs.Cutting.{after};
ghost use Rattle.explanation.specs.Questions.{item_asked};
ghost use Rattle.certify.specs.FormLines.{following, is_before_name, is_closed, is_effect, is_numbered, is_outcome, is_quoted, is_scope, is_tuple, item_in, part_after, part_of};

use dir_tree::NoMemory;
use explanation::{AskedItem, after, read_item, read_name};
use line_text::read_back;
use std::alloc::Global;

/// A part of a certificate behind the four lines of what was asked.
#[derive(Clone, Copy)]
pub(crate) enum Part {
    /// The lines about subentries.
    Scopes,
    /// The lines about tuples.
    Tuples,
    /// The line of what is decided.
    Outcome,
}

// The item that octets say, of which escapes are read back; None where they say none.
fn item_said(alloc: Global, octets: &[u8]) -> Result<Option<AskedItem>, NoMemory>
    ensures { IfOk result (λ item. option_map item_asked item ≡ of_text item_of octets.now) }
{
    match str::from_utf8(octets) {
        Ok(word) => read_item(alloc, word),
        Err(_) => Ok(None),
    }
}

/// The item that a text says with escapes; None where it says none.
pub(crate) fn read_item_text(alloc: Global, text: &[u8]) -> Result<Option<AskedItem>, NoMemory>
    ensures { IfOk result (λ item. option_map item_asked item ≡ item_in text.now) }
{
    match read_back(alloc, text)? {
        Some(octets) => item_said(alloc, &octets),
        None => Ok(None),
    }
}

// Whether the line is a word before a spelling of a name.
fn is_before_name(alloc: Global, word: &[u8], line: &[u8]) -> Result<bool, NoMemory>
    ensures { IfOk result (λ is. is ≡ is_before_name word.now line.now) }
{
    match after(word, line) {
        Some(text) => Ok(read_name(alloc, text)?.is_some()),
        None => Ok(false),
    }
}

// Whether the line is about a subentry.
fn is_scope(alloc: Global, line: &[u8]) -> Result<bool, NoMemory>
    ensures { IfOk result (λ is. is ≡ is_scope line.now) }
{
    if is_before_name(alloc, b"in ", line)? {
        return Ok(true);
    }
    is_before_name(alloc, b"out ", line)
}

// Whether what follows a quotation mark closes the string.
fn is_closed(text: &[u8]) -> bool
    ensures { result ≡ is_closed false text.now }
{
    let mut half = false;
    for octet in text {
        if half && *octet != b'"' {
            return false;
        }
        half = !half && *octet == b'"';
    }
    half
}

// Whether the text is a string.
fn is_quoted(text: &[u8]) -> bool
    ensures { result ≡ is_quoted text.now }
{
    match text.split_first() {
        Some((octet, rest)) => *octet == b'"' && is_closed(rest),
        None => false,
    }
}

// Whether the text is a word before a string.
fn is_before_string(word: &[u8], text: &[u8]) -> bool
    ensures { result ≡ option_map_or is_quoted (after word.now text.now) false }
{
    match after(word, text) {
        Some(string) => is_quoted(string),
        None => false,
    }
}

// Whether a digit from 0 to 6 and what a tuple does, with its tag, are the text.
fn is_numbered(text: &[u8]) -> bool
    ensures { result ≡ is_numbered text.now }
{
    match text.split_first() {
        Some((digit, rest)) => is_digit(*digit) && is_effect(rest),
        None => false,
    }
}

// Whether the octet is a digit from 0 to 6.
fn is_digit(octet: u8) -> bool
    ensures { result ≡ is_in_range 48 54 octet }
{
    b'0' <= octet && octet <= b'6'
}

// Whether what a tuple does, with its tag, is the text.
fn is_effect(text: &[u8]) -> bool
    ensures { result ≡ is_effect text.now }
{
    is_before_string(b" grant ", text) || is_before_string(b" deny ", text)
}

// Whether the line is about a tuple.
fn is_tuple(line: &[u8]) -> bool
    ensures { result ≡ is_tuple line.now }
{
    match after(b"tuple ", line) {
        Some(text) => is_numbered(text),
        None => false,
    }
}

// Whether the line says what is decided.
fn is_outcome(line: &[u8]) -> bool
    ensures { result ≡ is_outcome line.now }
{
    line == b"granted".as_slice() || line == b"refused".as_slice()
}

// The part in which the line may stand.
#[tactic(auto, unfolding(crate::specs::FormLines::part_of))]
fn part_of(alloc: Global, line: &[u8]) -> Result<Option<Part>, NoMemory>
    ensures { IfOk result (λ part. part ≡ part_of line.now) }
{
    if is_scope(alloc, line)? {
        Ok(Some(Part::Scopes))
    } else if is_tuple(line) {
        Ok(Some(Part::Tuples))
    } else if is_outcome(line) {
        Ok(Some(Part::Outcome))
    } else {
        Ok(None)
    }
}

// The part of a line behind one of a part, where it may follow.
fn following(part: Part, next: Part) -> Option<Part>
    ensures { result ≡ following part next }
{
    match part {
        Part::Scopes => Some(next),
        Part::Tuples => match next {
            Part::Scopes => None,
            Part::Tuples => Some(Part::Tuples),
            Part::Outcome => Some(Part::Outcome),
        },
        Part::Outcome => None,
    }
}

/// The part that the line, behind one of a part, begins or goes on with; None where it may not stand there.
pub(crate) fn part_after(alloc: Global, part: Part, line: &[u8]) -> Result<Option<Part>, NoMemory>
    ensures { IfOk result (λ next. next ≡ part_after part line.now) }
{
    match part_of(alloc, line)? {
        Some(next) => Ok(following(part, next)),
        None => Ok(None),
    }
}
