//! The lines of a text.

ghost use Rattle.std.specs.Prelude.{◌≡◌, ◌∷◌, ◌<◌, [], length, IfSome, IfNone};
ghost use Rattle.line_text.specs.Lines.{lines_of, rest_of};

use plain_values::position_of;

/// The first line of a text, without the LF that ends it, and what follows; None where no LF is left. A CR before the LF
/// is of the line.
pub fn next_line(text: &[u8]) -> Option<(&[u8], &[u8])>
    ensures found { IfSome result (λ cut. lines_of text.now ≡ cut.0.now ∷ lines_of cut.1.now) }
    ensures kept { IfSome result (λ cut. rest_of text.now ≡ rest_of cut.1.now) }
    ensures shorter { IfSome result (λ cut. length cut.1.now < length text.now) }

    // no LF is left
    ensures none { IfNone result (lines_of text.now ≡ []) }
    ensures rest { IfNone result (rest_of text.now ≡ text.now) }
{
    let end = position_of(text, b'\n');
    if end < text.len() {
        Some((&text[..end], &text[end + 1..]))
    } else {
        None
    }
}
