//! The octets and the key of a value in one text, which takes no memory beside its own where it is short.

ghost use Rattle.std.specs.Prelude.{◌≡◌, ◌↔◌, ◌≤◌, ◌<◌, ◌+◌, ◌++◌, true, length, take, IfOk, IsTrue};
ghost use Rattle.dn_names.specs.Texts.{room, text_in, is_short};

use std::alloc::{AllocError, Global};
use std::marker::Model;

// The most octets of a short text: with so many, both forms take the same memory.
const ROOM: usize = 37;

/// A text, and the place where it is split. Contracts see both.
#[derive(Debug, Drop)]
pub(crate) struct Text {
    kept: Form,
}

/// A short text, as that of nearly every value, takes no memory beside its own.
#[derive(Debug, Drop)]
enum Form {
    Short {
        len: u8,
        split: u8,
        octets: [u8; ROOM],
    },
    Long {
        split: usize,
        octets: Vec<u8>,
    },
}

impl Model for Text {
    ghost use Rattle.dn_names.specs.Texts.{SplitText, text_in};

    ghost Value = { SplitText };

    ghost view = { λ text. text_in text.kept };
}

impl Text {
    /// The text of these octets, split at this place.
    pub(crate) fn from_vec(octets: Vec<u8>, split: usize) -> Text
        ensures exact { result ≡ record { octets = octets.items; split = split } }
    {
        Text {
            kept: form_of(octets, split),
        }
    }

    /// The text of octets and of others behind them, split at this place. The error comes where a long one gets no
    /// memory.
    pub(crate) fn from_slices(
        alloc: Global,
        octets: &[u8],
        more: &[u8],
        split: usize,
    ) -> Result<Text, AllocError>
        ensures ok { IfOk result (λ text. text ≡ record { octets = octets.now ++ more.now; split = split }) }
    {
        if let Ok(short) = u8::try_from(split) {
            if octets.len() <= ROOM && more.len() <= ROOM - octets.len() {
                return Ok(Text {
                    kept: joined_form(octets, more, short),
                });
            }
        }
        let octets = append(octets.to_vec(alloc)?, more)?;
        Ok(Text::from_vec(octets, split))
    }

    /// The text of octets that others keep, split at this place.
    pub(crate) fn from_slice(alloc: Global, octets: &[u8], split: usize) -> Result<Text, AllocError>
        ensures ok { IfOk result (λ text. text ≡ record { octets = octets.now; split = split }) }
    {
        Text::from_slices(alloc, octets, &[], split)
    }

    /// The octets.
    pub(crate) fn as_slice(&self) -> &[u8]
        ensures exact { result.now ≡ self.now.octets }
    {
        match &self.kept {
            Form::Short { len, octets, .. } => front(octets, usize::from(*len)),
            Form::Long { octets, .. } => octets.as_slice(),
        }
    }

    /// Where they are split.
    pub(crate) fn split(&self) -> usize
        ensures exact { result ≡ self.now.split }
    {
        match &self.kept {
            Form::Short { split, .. } => usize::from(*split),
            Form::Long { split, .. } => *split,
        }
    }

    /// The same text; a long one in memory of its own, and the error comes where there is none.
    pub(crate) fn copy(&self, alloc: Global) -> Result<Text, AllocError>
        ensures ok { IfOk result (λ text. text ≡ self.now) }
    {
        let kept = match &self.kept {
            Form::Short { len, split, octets } => Form::Short {
                len: *len,
                split: *split,
                octets: *octets,
            },
            Form::Long { split, octets } => Form::Long {
                split: *split,
                octets: octets.as_slice().to_vec(alloc)?,
            },
        };
        Ok(Text { kept })
    }
}

/// So many octets of the front, or as many as there are.
pub(crate) fn front(octets: &[u8], size: usize) -> &[u8]
    ensures exact { result.now ≡ take size octets.now }
{
    &octets[..size.min(octets.len())]
}

// The form of a text: the short one wherever it has room.
fn form_of(octets: Vec<u8>, split: usize) -> Form
    ensures exact { text_in result ≡ record { octets = octets.items; split = split } }
    ensures short { IsTrue (is_short result) ↔ ((length octets.items ≤ room) × (split < 256)) }
{
    if let Ok(split) = u8::try_from(split) {
        if octets.len() <= ROOM {
            return short_form(&octets, split);
        }
    }
    let mut octets = octets;
    octets.shrink_to_fit();
    Form::Long { split, octets }
}

// The short form.
fn short_form(octets: &[u8], split: u8) -> Form
    requires fits { length octets.now ≤ room }
    ensures exact { text_in result ≡ record { octets = octets.now; split = split } }
    ensures short { is_short result ≡ true }
{
    Form::Short {
        len: octets.len() as u8,
        split,
        octets: padded(octets),
    }
}

// The short form of octets and of others behind them.
fn joined_form(octets: &[u8], more: &[u8], split: u8) -> Form
    requires fits { length octets.now + length more.now ≤ room }
    ensures exact { text_in result ≡ record { octets = octets.now ++ more.now; split = split } }
{
    Form::Short {
        len: (octets.len() + more.len()) as u8,
        split,
        octets: padded_both(octets, more),
    }
}

// The octets, others behind them, and zeros behind these.
fn padded_both(octets: &[u8], more: &[u8]) -> [u8; ROOM]
    requires fits { length octets.now + length more.now ≤ room }
    ensures front { take (length octets.now + length more.now) result ≡ octets.now ++ more.now }
{
    let mut room = padded(octets);
    room[octets.len()..octets.len() + more.len()].copy_from_slice(more);
    room
}

// The octets, and zeros behind them.
fn padded(octets: &[u8]) -> [u8; ROOM]
    requires fits { length octets.now ≤ room }
    ensures front { take (length octets.now) result ≡ octets.now }
{
    let mut room = [0; ROOM];
    room[..octets.len()].copy_from_slice(octets);
    room
}

/// The octets and then others.
pub(crate) fn append(octets: Vec<u8>, more: &[u8]) -> Result<Vec<u8>, AllocError>
    ensures ok { IfOk result (λ text. text.items ≡ octets.items ++ more.now) }
{
    let mut text = octets;
    text.reserve_exact(more.len())?;
    text.extend_from_slice(more)?;
    Ok(text)
}
