//! The octets that the encoding rules tell apart.

ghost use Rattle.std.specs.Prelude.{◌≡◌};
ghost use Rattle.gser_tree.specs.Lexemes.{class_of};

/// A mark between words and strings.
#[derive(Clone, Copy)]
pub(crate) enum Mark {
    /// `{`.
    Open,
    /// `}`.
    Close,
    /// `,`.
    Comma,
    /// `:`.
    Colon,
}

/// What an octet is where it stands in no string.
#[derive(Clone, Copy)]
pub(crate) enum Class {
    /// U+0020.
    Blank,
    /// A letter, a digit, a hyphen or a dot.
    Letter,
    /// `"`.
    Quote,
    /// A mark.
    Sign(Mark),
    /// Any other octet.
    Other,
}

/// The class of an octet.
#[tactic(auto, unfolding(crate::specs::Lexemes::class_of))]
pub(crate) fn classify(octet: u8) -> Class
    ensures exact { result ≡ class_of octet }
{
    match octet {
        b' ' => Class::Blank,
        b'"' => Class::Quote,
        b',' => Class::Sign(Mark::Comma),
        b'-' => Class::Letter,
        b'.' => Class::Letter,
        b'0'..=b'9' => Class::Letter,
        b':' => Class::Sign(Mark::Colon),
        b'A'..=b'Z' => Class::Letter,
        b'a'..=b'z' => Class::Letter,
        b'{' => Class::Sign(Mark::Open),
        b'}' => Class::Sign(Mark::Close),
        _ => Class::Other,
    }
}
