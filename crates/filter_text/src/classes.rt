//! The classes into which the grammar of filters sorts octets.

ghost use Rattle.std.specs.Prelude.{◌≡◌};
ghost use Rattle.filter_text.specs.Classes.{class_of};

/// What an octet may be in a filter's text.
#[derive(Clone, Copy)]
pub(crate) enum Class {
    /// `a` to `f` and `A` to `F`: a letter and a hexadecimal digit.
    HexLetter,
    /// Any other letter of ASCII.
    Letter,
    /// `0`.
    Zero,
    /// `1` to `9`.
    Digit,
    /// `-`.
    Dash,
    /// `.`.
    Dot,
    /// `=`.
    Equals,
    /// `<`, `>` or `~`: with `=` behind it an operator.
    Sign,
    /// `(`.
    Open,
    /// `)`.
    Close,
    /// `*`.
    Asterisk,
    /// `\`.
    Backslash,
    /// `&`.
    Ampersand,
    /// `|`.
    Vertbar,
    /// `!`.
    Exclamation,
    /// The octet 0.
    Nul,
    /// Any other octet.
    Other,
}

/// The class of an octet.
#[tactic(auto, unfolding(crate::specs::Classes::class_of))]
pub(crate) fn classify(octet: u8) -> Class
    ensures exact { result ≡ class_of octet }
{
    match octet {
        0 => Class::Nul,
        b'!' => Class::Exclamation,
        b'&' => Class::Ampersand,
        b'(' => Class::Open,
        b')' => Class::Close,
        b'*' => Class::Asterisk,
        b'-' => Class::Dash,
        b'.' => Class::Dot,
        b'0' => Class::Zero,
        b'1'..=b'9' => Class::Digit,
        b'<' | b'>' | b'~' => Class::Sign,
        b'=' => Class::Equals,
        b'A'..=b'F' | b'a'..=b'f' => Class::HexLetter,
        b'G'..=b'Z' | b'g'..=b'z' => Class::Letter,
        b'\\' => Class::Backslash,
        b'|' => Class::Vertbar,
        _ => Class::Other,
    }
}
