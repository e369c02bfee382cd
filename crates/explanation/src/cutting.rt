//! Words taken apart.

ghost use Rattle.std.specs.Prelude.{◌≡◌};
ghost use Rattle.std.specs.Option.{option_copied, option_map};
ghost use Rattle.explanation.specs.Cutting.{after, cut_at_equals, pair_view};

use dir_tree::plain_values::position_of;

/// The octets of `text` behind `front`; None where `text` doesn't begin with it.
pub fn after<'a>(front: &[u8], text: &'a [u8]) -> Option<&'a [u8]>
    ensures exact { option_copied result ≡ after front.now text.now }
{
    text.strip_prefix(front)
}

/// What stands before the first `=` and after it.
pub(crate) fn cut_at_equals(text: &[u8]) -> Option<(&[u8], &[u8])>
    ensures { option_map pair_view result ≡ cut_at_equals text.now }
{
    let place = position_of(text, b'=');
    if place < text.len() {
        Some((&text[..place], &text[place + 1..]))
    } else {
        None
    }
}
