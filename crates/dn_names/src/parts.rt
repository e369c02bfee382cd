//! The parts of a name's text: RDNs between commas, pairs between plus signs, a type and a value round `=`.

ghost use Rattle.std.specs.Prelude.{◌≡◌, ◌≤◌, ◌<◌, ◌+◌, suc, false, [], ◌∷◌, length, MatchOption, IfSome};
ghost use Rattle.dn_names.specs.Reading.{is_mark, escapes_next, parts_of, marks_from, mark_from, is_blank, word_of, kind_size, value_octets, pair_of};

use crate::octets::skip_spaces;

/// Whether nothing but spaces is in the text.
pub(crate) fn is_blank(text: &[u8]) -> bool
    ensures exact { result ≡ is_blank text.now }
{
    text.iter().all(|octet| *octet == b' ')
}

// Whether the octet is the mark, and no backslash stands before it.
fn is_mark(mark: u8, escaped: bool, octet: u8) -> bool
    ensures exact { result ≡ is_mark mark escaped octet }
{
    !escaped && octet == mark
}

// Whether the octet after this one stands behind a backslash.
fn escapes_next(escaped: bool, octet: u8) -> bool
    ensures exact { result ≡ escapes_next escaped octet }
{
    !escaped && octet == b'\\'
}

#[tactic(auto, unfolding(crate::specs::Reading::parts_of))]
/// How many marks stand in the text, no backslash before them: one fewer than the parts between them.
pub(crate) fn count_marks(text: &[u8], mark: u8) -> usize
    ensures exact { suc result ≡ length (parts_of mark text.now) }
{
    let mut count = 0;
    let mut escaped = false;
    for octet in text {
        if is_mark(mark, escaped, *octet) {
            count += 1;
            escaped = false;
        } else {
            escaped = escapes_next(escaped, *octet);
        }
    }
    count
}

// The place of the first such mark, or the text's length. Few texts have a backslash before it.
fn mark_place(text: &[u8], mark: u8) -> usize
    ensures exact { result ≡ mark_from mark false text.now }
    ensures fits { result ≤ length text.now }
{
    for (place, octet) in text.iter().enumerate() {
        if is_mark(mark, false, *octet) {
            return place;
        }
        if escapes_next(false, *octet) {
            return escaped_place(text, mark);
        }
    }
    text.len()
}

// The same, octet by octet.
fn escaped_place(text: &[u8], mark: u8) -> usize
    ensures exact { result ≡ mark_from mark false text.now }
    ensures fits { result ≤ length text.now }
{
    let mut escaped = false;
    for (place, octet) in text.iter().enumerate() {
        if is_mark(mark, escaped, *octet) {
            return place;
        }
        escaped = escapes_next(escaped, *octet);
    }
    text.len()
}

#[tactic(auto, unfolding(crate::specs::Reading::parts_of))]
/// The first part, and the text of the others, if there are any.
pub(crate) fn cut(text: &[u8], mark: u8) -> (&[u8], Option<&[u8]>)
    ensures exact { MatchOption result.1 (parts_of mark text.now ≡ result.0.now ∷ [])
        (λ rest. parts_of mark text.now ≡ result.0.now ∷ parts_of mark rest.now) }
    ensures fits { IfSome result.1 (λ rest. length result.0.now + length rest.now < length text.now) }
{
    let (front, rest) = text.split_at(mark_place(text, mark));
    if rest.is_empty() {
        (front, None)
    } else {
        (front, Some(rest.split_at(1).1))
    }
}

// How many octets stand before the first `=`.
fn kind_size(text: &[u8]) -> usize
    ensures exact { result ≡ kind_size text.now }
    ensures fits { result ≤ length text.now }
{
    for (place, octet) in text.iter().enumerate() {
        if *octet == b'=' {
            return place;
        }
    }
    text.len()
}

// The first word of a text.
fn first_word(text: &[u8]) -> &[u8]
    ensures exact { result.now ≡ word_of text.now }
{
    let word = skip_spaces(text);
    for (place, octet) in word.iter().enumerate() {
        if *octet == b' ' {
            return &word[..place];
        }
    }
    word
}

#[tactic(auto, unfolding(crate::specs::Reading::pair_of))]
/// A pair's type, and the text of its value.
pub(crate) fn kind_and_value(text: &[u8]) -> (&[u8], &[u8])
    ensures kind { result.0.now ≡ (pair_of text.now).kind }
    ensures value { value_octets result.1.now ≡ (pair_of text.now).octets }
{
    let (kind, rest) = text.split_at(kind_size(text));
    if rest.is_empty() {
        (first_word(kind), rest)
    } else {
        (first_word(kind), rest.split_at(1).1)
    }
}
