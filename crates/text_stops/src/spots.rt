//! The marks, words and strings of a text, with their places.

ghost use Rattle.std.specs.Prelude.{◌≡◌, ◌++◌, ◌∷◌, [], ◌≤◌, IfOk, OnOk, length, if◌then◌else◌};
ghost use Rattle.text_stops.specs.Spots.{class_of, spot, touched, begin, ended, in_word, quoted, in_text, step, at_end, spots_of, cut};

use std::alloc::{AllocError, Global};

/// What stands at a spot.
#[derive(Clone, Copy)]
pub(crate) enum Kind {
    /// `{`.
    Open,
    /// `}`.
    Close,
    /// `,`.
    Comma,
    /// `:`.
    Colon,
    /// Octets that are no space, no mark and no quotation mark.
    Word,
    /// A string, with its quotation marks.
    Text,
    /// Nothing but a bound that may not be there: a word, a string or an opening brace touches a word or a string, or a
    /// string has no end.
    Touch,
}

/// A spot of a text: what stands there, and where it begins and ends. Marks and bounds end where they begin.
#[derive(Clone, Copy)]
pub(crate) struct Spot {
    pub(crate) kind: Kind,
    pub(crate) place: usize,
    pub(crate) end: usize,
}

/// What an octet is where it stands in no string.
#[derive(Clone, Copy)]
pub(crate) enum Class {
    Blank,
    Quote,
    Sign(Kind),
    Other,
}

/// Where in a text looking stands.
#[derive(Clone, Copy)]
pub(crate) enum Mode {
    /// Nothing has begun.
    Between,
    /// In a word that began there.
    InWord(usize),
    /// In a string that began there.
    InText(usize),
    /// Behind a quotation mark in a string that began there.
    Quoted(usize),
}

// The class of an octet.
fn classify(octet: u8) -> Class
    ensures exact { result ≡ class_of octet }
{
    match octet {
        b' ' => Class::Blank,
        b'"' => Class::Quote,
        b',' => Class::Sign(Kind::Comma),
        b':' => Class::Sign(Kind::Colon),
        b'{' => Class::Sign(Kind::Open),
        b'}' => Class::Sign(Kind::Close),
        _ => Class::Other,
    }
}

// Puts a spot behind the others.
fn put(spots: &mut Vec<Spot>, kind: Kind, place: usize, end: usize) -> Result<(), AllocError>
    ensures ok { OnOk result (spots.new.items ≡ spots.old.items ++ spot kind place end ∷ []) }
{
    spots.push(Spot { kind, place, end })?;
    Ok(())
}

// Puts a bound that may not be there, where the octet touches a word or a string.
fn touch(spots: &mut Vec<Spot>, touches: bool, place: usize) -> Result<(), AllocError>
    ensures ok { OnOk result (spots.new.items ≡ spots.old.items ++ touched touches place) }
{
    if touches {
        put(spots, Kind::Touch, place, place)
    } else {
        Ok(())
    }
}

// An octet that begins something.
fn begin(
    spots: &mut Vec<Spot>,
    touches: bool,
    place: usize,
    class: Class,
) -> Result<Mode, AllocError>
    ensures mode { IfOk result (λ mode. mode ≡ (begin touches place class).mode) }
    ensures spots { OnOk result (spots.new.items ≡ spots.old.items ++ (begin touches place class).spots) }
{
    match class {
        Class::Blank => Ok(Mode::Between),
        Class::Sign(Kind::Open) => {
            touch(spots, touches, place)?;
            put(spots, Kind::Open, place, place)?;
            Ok(Mode::Between)
        }
        Class::Sign(kind) => {
            put(spots, kind, place, place)?;
            Ok(Mode::Between)
        }
        Class::Quote => {
            touch(spots, touches, place)?;
            Ok(Mode::InText(place))
        }
        Class::Other => {
            touch(spots, touches, place)?;
            Ok(Mode::InWord(place))
        }
    }
}

// An octet behind a word or a string, which ends before it.
fn ended(
    spots: &mut Vec<Spot>,
    kind: Kind,
    start: usize,
    place: usize,
    class: Class,
) -> Result<Mode, AllocError>
    ensures mode { IfOk result (λ mode. mode ≡ (ended kind start place class).mode) }
    ensures spots { OnOk result (spots.new.items ≡ spots.old.items ++ (ended kind start place class).spots) }
{
    put(spots, kind, start, place)?;
    begin(spots, true, place, class)
}

// An octet in a word or behind it.
fn in_word(
    spots: &mut Vec<Spot>,
    start: usize,
    place: usize,
    class: Class,
) -> Result<Mode, AllocError>
    ensures mode { IfOk result (λ mode. mode ≡ (in_word start place class).mode) }
    ensures spots { OnOk result (spots.new.items ≡ spots.old.items ++ (in_word start place class).spots) }
{
    match class {
        Class::Other => Ok(Mode::InWord(start)),
        _ => ended(spots, Kind::Word, start, place, class),
    }
}

// An octet in a string.
fn in_text(start: usize, class: Class) -> Mode
    ensures exact { result ≡ in_text start class }
{
    match class {
        Class::Quote => Mode::Quoted(start),
        _ => Mode::InText(start),
    }
}

// An octet behind a quotation mark in a string.
fn quoted(
    spots: &mut Vec<Spot>,
    start: usize,
    place: usize,
    class: Class,
) -> Result<Mode, AllocError>
    ensures mode { IfOk result (λ mode. mode ≡ (quoted start place class).mode) }
    ensures spots { OnOk result (spots.new.items ≡ spots.old.items ++ (quoted start place class).spots) }
{
    match class {
        Class::Quote => Ok(Mode::InText(start)),
        _ => ended(spots, Kind::Text, start, place, class),
    }
}

// An octet.
#[tactic(auto, unfolding(crate::specs::Spots::step))]
fn step(spots: &mut Vec<Spot>, mode: Mode, place: usize, octet: u8) -> Result<Mode, AllocError>
    ensures mode { IfOk result (λ next. next ≡ (step mode place octet).mode) }
    ensures spots { OnOk result (spots.new.items ≡ spots.old.items ++ (step mode place octet).spots) }
{
    let class = classify(octet);
    match mode {
        Mode::Between => begin(spots, false, place, class),
        Mode::InWord(start) => in_word(spots, start, place, class),
        Mode::InText(start) => Ok(in_text(start, class)),
        Mode::Quoted(start) => quoted(spots, start, place, class),
    }
}

// Puts what the end of the text ends.
fn end(spots: &mut Vec<Spot>, mode: Mode, place: usize) -> Result<(), AllocError>
    ensures ok { OnOk result (spots.new.items ≡ spots.old.items ++ at_end mode place) }
{
    match mode {
        Mode::Between => Ok(()),
        Mode::InWord(start) => put(spots, Kind::Word, start, place),
        Mode::InText(_) => put(spots, Kind::Touch, place, place),
        Mode::Quoted(start) => put(spots, Kind::Text, start, place),
    }
}

/// The spots of a text, in its order.
#[tactic(auto, unfolding(crate::specs::Spots::spots_of))]
pub(crate) fn spots_of(alloc: Global, text: &[u8]) -> Result<Vec<Spot>, AllocError>
    ensures ok { IfOk result (λ spots. spots.items ≡ spots_of text.now) }
{
    let mut spots = Vec::new(alloc);
    let mut mode = Mode::Between;
    for (place, octet) in text.iter().enumerate() {
        mode = step(&mut spots, mode, place, *octet)?;
    }
    end(&mut spots, mode, text.len())?;
    Ok(spots)
}

/// The octets from one place of a text to another.
pub(crate) fn cut(text: &[u8], spot: Spot) -> &[u8]
    ensures exact { result.now ≡ cut text.now spot }
{
    if spot.place <= spot.end && spot.end <= text.len() {
        &text[spot.place..spot.end]
    } else {
        &[]
    }
}
