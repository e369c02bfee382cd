//! The states of reading an item: a type, an operator and a value.

ghost use Rattle.std.specs.Prelude.{◌≡◌};
ghost use Rattle.filter_text.specs.Modes.{begin_of, after_kind_of, in_value_of, digit_to, in_kind_of, step_of, may_end};

use crate::classes::Class;

/// Where in an item's text reading is.
#[derive(Clone, Copy)]
pub(crate) enum Mode {
    /// Nothing has come.
    Start,
    /// Within a type's name.
    Word,
    /// After an object identifier's first number, which is 0.
    FirstZero,
    /// Within an object identifier's first number.
    FirstNumber,
    /// After a dot of an object identifier.
    AfterDot,
    /// After a later number, which is 0.
    LaterZero,
    /// Within a later number.
    LaterNumber,
    /// After `<`, `>` or `~`.
    AfterSign,
    /// Within a value that can't have asterisks.
    Value,
    /// After a `\` of it.
    ValueEscape,
    /// After a `\` and one hexadecimal digit.
    ValueHalf,
    /// Behind `=`, where no asterisk has come.
    Matched,
    /// After a `\` of it.
    MatchedEscape,
    /// After a `\` and one hexadecimal digit.
    MatchedHalf,
    /// After an asterisk.
    AfterStar,
    /// Within a part behind an asterisk.
    Part,
    /// After a `\` of it.
    PartEscape,
    /// After a `\` and one hexadecimal digit.
    PartHalf,
}

/// The state after an octet of the class, or None where none may follow.
pub(crate) fn step(mode: Mode, class: Class) -> Option<Mode>
    ensures exact { result ≡ step_of mode class }
{
    match mode {
        Mode::Start
        | Mode::Word
        | Mode::FirstZero
        | Mode::FirstNumber
        | Mode::AfterDot
        | Mode::LaterZero
        | Mode::LaterNumber => in_kind(mode, class),
        Mode::AfterSign => match class {
            Class::Equals => Some(Mode::Value),
            _ => None,
        },
        Mode::Value => in_value(Mode::Value, Mode::ValueEscape, class),
        Mode::ValueEscape => digit_to(Mode::ValueHalf, class),
        Mode::ValueHalf => digit_to(Mode::Value, class),
        Mode::Matched => match class {
            Class::Asterisk => Some(Mode::AfterStar),
            _ => in_value(Mode::Matched, Mode::MatchedEscape, class),
        },
        Mode::MatchedEscape => digit_to(Mode::MatchedHalf, class),
        Mode::MatchedHalf => digit_to(Mode::Matched, class),
        Mode::AfterStar => in_value(Mode::Part, Mode::PartEscape, class),
        Mode::Part => match class {
            Class::Asterisk => Some(Mode::AfterStar),
            _ => in_value(Mode::Part, Mode::PartEscape, class),
        },
        Mode::PartEscape => digit_to(Mode::PartHalf, class),
        Mode::PartHalf => digit_to(Mode::Part, class),
    }
}

// The same in a type; in a value no state follows.
fn in_kind(mode: Mode, class: Class) -> Option<Mode>
    ensures exact { result ≡ in_kind_of mode class }
{
    use Class::*;
    match mode {
        Mode::Start => begin(class),
        Mode::Word => match class {
            HexLetter | Letter | Zero | Digit | Dash => Some(Mode::Word),
            _ => after_kind(class),
        },
        Mode::FirstZero => match class {
            Dot => Some(Mode::AfterDot),
            _ => None,
        },
        Mode::FirstNumber => match class {
            Zero | Digit => Some(Mode::FirstNumber),
            Dot => Some(Mode::AfterDot),
            _ => None,
        },
        Mode::AfterDot => match class {
            Zero => Some(Mode::LaterZero),
            Digit => Some(Mode::LaterNumber),
            _ => None,
        },
        Mode::LaterZero => match class {
            Dot => Some(Mode::AfterDot),
            _ => after_kind(class),
        },
        Mode::LaterNumber => match class {
            Zero | Digit => Some(Mode::LaterNumber),
            Dot => Some(Mode::AfterDot),
            _ => after_kind(class),
        },
        _ => None,
    }
}

/// The state after the first octet of a type.
pub(crate) fn begin(class: Class) -> Option<Mode>
    ensures exact { result ≡ begin_of class }
{
    match class {
        Class::HexLetter | Class::Letter => Some(Mode::Word),
        Class::Zero => Some(Mode::FirstZero),
        Class::Digit => Some(Mode::FirstNumber),
        _ => None,
    }
}

// What may follow a whole type.
fn after_kind(class: Class) -> Option<Mode>
    ensures exact { result ≡ after_kind_of class }
{
    match class {
        Class::Equals => Some(Mode::Matched),
        Class::Sign => Some(Mode::AfterSign),
        _ => None,
    }
}

// What may follow a part of a value, asterisks apart: the state within it, or the one after a backslash.
fn in_value(within: Mode, escape: Mode, class: Class) -> Option<Mode>
    ensures exact { result ≡ in_value_of within escape class }
{
    match class {
        Class::Backslash => Some(escape),
        Class::Nul | Class::Open | Class::Close | Class::Asterisk => None,
        _ => Some(within),
    }
}

// The next state, where the class is that of a hexadecimal digit.
fn digit_to(next: Mode, class: Class) -> Option<Mode>
    ensures exact { result ≡ digit_to next class }
{
    match class {
        Class::HexLetter | Class::Zero | Class::Digit => Some(next),
        _ => None,
    }
}

/// Whether an item's text may end in the state.
pub(crate) fn ends(mode: Mode) -> bool
    ensures exact { result ≡ may_end mode }
{
    match mode {
        Mode::Value | Mode::Matched | Mode::AfterStar | Mode::Part => true,
        _ => false,
    }
}
