//! Numbers among the words.

ghost use Rattle.std.specs.Prelude.{◌≡◌, option_copied};
ghost use Rattle.std.specs.Char.{is_ascii_digit};
ghost use Rattle.std.specs.List.{list_all};
ghost use Rattle.command_words.specs.Number.{number_of, number_said, number_within, value_within, has_form};

/// What an option's number may be: its value where the option isn't given, and the least and the greatest that it says.
#[derive(Clone, Copy, Debug, Drop)]
pub struct NumberRange {
    pub absent: u64,
    pub least: u64,
    pub greatest: u64,
}

fn all_digits(text: &str) -> bool
    ensures { result ≡ list_all is_ascii_digit text.now }
{
    text.bytes().all(|octet| octet.is_ascii_digit())
}

/// One to twenty decimal digits.
fn has_form(text: &str) -> bool
    ensures { result ≡ has_form text.now }
{
    !text.is_empty() && text.len() <= 20 && all_digits(text)
}

/// The value of one to twenty decimal digits, where 64 bits hold it. Zeros may lead.
#[tactic(auto, unfolding(crate::specs::Number::number_of))]
fn number_of(text: &str) -> Option<u64>
    ensures { result ≡ number_of text.now }
{
    if has_form(text) {
        text.parse::<u64>().ok()
    } else {
        None
    }
}

fn value_within(least: u64, greatest: u64, value: u64) -> Option<u64>
    ensures { result ≡ value_within least greatest value }
{
    if least <= value && value <= greatest {
        Some(value)
    } else {
        None
    }
}

/// The value of a number of at most so many decimal digits, where it is from the least to the greatest.
#[tactic(auto, unfolding(crate::specs::Number::number_within))]
pub fn number_within(digits: usize, least: u64, greatest: u64, text: &str) -> Option<u64>
    ensures { result ≡ number_within digits least greatest text.now }
{
    if text.len() <= digits {
        value_within(least, greatest, number_of(text)?)
    } else {
        None
    }
}

/// The number that an option's argument says, where it is in the option's range, or the default where the option isn't
/// given.
pub fn number_said(range: NumberRange, text: Option<&str>) -> Option<u64>
    ensures { result ≡ number_said range (option_copied text.entry) }
{
    match text {
        Some(text) => number_within(20, range.least, range.greatest, text),
        None => Some(range.absent),
    }
}
