//! The word at which reading stops.

ghost use Rattle.std.specs.Prelude.{◌≡◌, ◌++◌, ◌∷◌, ◌≤◌, OnOk, Some, None, nat_le, length, option_map, string_bytes, codes, if◌then◌else◌};
ghost use Rattle.std.specs.List.{position_or_len, list_all};
ghost use Rattle.std.specs.Str.{is_utf8};
ghost use Rattle.text_stops.specs.Stops.{is_mark, ends_word, word_at, is_shown, shown, front_word, stop_word};

use crate::stops::NoMemory;
use plain_values::position_of;
use std::str;

// Whether the octet is a mark.
fn is_mark(octet: u8) -> bool
    ensures exact { result ≡ is_mark octet }
{
    octet == b',' || octet == b':' || octet == b'{' || octet == b'}'
}

// Whether the octet ends a word.
fn ends_word(octet: u8) -> bool
    ensures exact { result ≡ ends_word octet }
{
    is_mark(octet) || octet == b' ' || octet == b'"'
}

// The place of the first octet that ends a word, or the length where none does.
#[tactic(auto, using(std::proofs::lemmas::List::Sums::position_or_len_is))]
fn end_of_word(text: &[u8]) -> usize
    ensures exact { result ≡ position_or_len ends_word text.now }
    ensures within { result ≤ length text.now }
{
    for (place, octet) in text.iter().enumerate() {
        if ends_word(*octet) {
            return place;
        }
    }
    text.len()
}

// The word at the front of a text that has an octet.
fn word_at<'a>(first: u8, rest: &'a [u8], text: &'a [u8]) -> &'a [u8]
    requires { text.now ≡ first ∷ rest.now }
    ensures exact { result.now ≡ word_at first rest.now }
{
    if first == b'"' {
        rest.split_at(position_of(rest, b'"')).0
    } else if is_mark(first) {
        text.split_at(1).0
    } else {
        text.split_at(end_of_word(text)).0
    }
}

// Whether no octet is a control character.
fn has_no_controls(word: &[u8]) -> bool
    ensures exact { result ≡ list_all (λ octet. nat_le 32 octet) word.now }
{
    word.iter().all(|octet| *octet >= 32)
}

// The octets as a text, where they are one.
fn as_text(word: &[u8]) -> Option<&str>
    ensures exact { option_map (λ text. text.now) result ≡ (if is_utf8 word.now then Some word.now else None) }
{
    match str::from_utf8(word) {
        Ok(text) => Some(text),
        Err(_) => None,
    }
}

// The same, where it can be shown in a line.
fn shown_text(word: &[u8]) -> Option<&str>
    ensures exact { option_map (λ text. text.now) result ≡ (if is_shown word.now then Some word.now else None) }
{
    let text = as_text(word)?;
    if has_no_controls(word) {
        Some(text)
    } else {
        None
    }
}

// Writes a text in quotation marks.
fn put_quoted(text: &str, out: &mut String) -> Result<(), NoMemory>
    ensures ok { OnOk result (string_bytes out.new ≡ string_bytes out.old ++ (codes "\"" ++ (text.now ++ codes "\""))) }
{
    out.push_str("\"")?;
    out.push_str(text)?;
    out.push_str("\"")
}

/// Writes octets in quotation marks, or that they are no text that can be shown in a line.
#[tactic(auto, unfolding(crate::specs::Stops::shown))]
pub fn put_shown(octets: &[u8], out: &mut String) -> Result<(), NoMemory>
    ensures ok { OnOk result (string_bytes out.new ≡ string_bytes out.old ++ shown octets.now) }
{
    match shown_text(octets) {
        Some(text) => put_quoted(text, out),
        None => out.push_str("octets that are no text"),
    }
}

/// Writes the word at the place of the text, in quotation marks, or that the text ends there.
#[tactic(auto, unfolding(crate::specs::Stops::stop_word))]
pub fn put_word(text: &[u8], place: usize, out: &mut String) -> Result<(), NoMemory>
    ensures ok { OnOk result (string_bytes out.new ≡ string_bytes out.old ++ stop_word text.now place) }
{
    let rest = text.split_at(place.min(text.len())).1;
    match rest.split_first() {
        Some((first, after)) => put_shown(word_at(*first, after, rest), out),
        None => out.push_str("the end"),
    }
}
