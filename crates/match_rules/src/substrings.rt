//! Substrings, looked for in keys.

ghost use Rattle.std.specs.Prelude.{◌↔◌, map, IsTrue};
ghost use Rattle.std.specs.Option.{option_copied};
ghost use Rattle.match_rules.specs.substrings.Substrings.{InOrder, IsSubstring};
ghost use Rattle.match_rules.specs.substrings.PartsInOrder.{IsTextBehind, IsTextBetween};

use memchr::memmem;

/// Whether a key begins with the first part, ends with the last one, and has all middle parts in between, one
/// behind the other. The parts do not overlap, and an absent part is empty.
pub fn substring(key: &[u8], first: &[u8], middle: &[Vec<u8>], last: &[u8]) -> bool
    ensures { IsTrue result
        ↔ IsSubstring key.now first.now (map (λ part. part.items) middle.now) last.now }
{
    match text_between(key, first, last) {
        Some(between) => stand_in_order(middle, between),
        None => false,
    }
}

/// What stands between the first part and the last.
fn text_between<'a>(key: &'a [u8], first: &[u8], last: &[u8]) -> Option<&'a [u8]>
    ensures { IsTextBetween key.now first.now last.now (option_copied result) }
{
    key.strip_prefix(first)?.strip_suffix(last)
}

/// Whether the parts stand in the text one behind the other: each is sought behind the first place of the one
/// before it, which leaves the longest rest.
fn stand_in_order(parts: &[Vec<u8>], text: &[u8]) -> bool
    ensures { IsTrue result ↔ InOrder (map (λ part. part.items) parts.now) text.now }
{
    let mut rest = text;
    for part in parts {
        let Some(behind) = text_behind(part, rest) else {
            return false;
        };
        rest = behind;
    }
    true
}

/// What stands behind the first place of a part in a text. A part that is longer than the text isn't sought in it, since a
/// search takes time for each octet of the part.
fn text_behind<'a>(part: &[u8], text: &'a [u8]) -> Option<&'a [u8]>
    ensures { IsTextBehind part.now text.now (option_copied result) }
{
    if part.len() > text.len() {
        return None;
    }
    let place = memmem::find(text, part)?;
    Some(&text[place + part.len()..])
}
