//! Reading values: they misfit, or they are read, and the first bad part is noted.

ghost use Rattle.std.specs.Prelude.{◌≡◌, IsTrue, None, Some, option_map};
ghost use Rattle.std.specs.Char.{is_ascii_digit};
ghost use Rattle.std.specs.List.{list_all};
ghost use Rattle.gser_tree.specs.declared.reading.Stop.TheVariants.{NoMemory};
ghost use Rattle.gser_tree.specs.Reading.{noted, is_number, at_most, number, Reads};
ghost use Rattle.gser_tree.specs.Tree.{shape_of};

use crate::tree::Tree;
use std::alloc::{AllocError, AllocFailed};

/// Why a value is not read.
#[derive(Clone, Copy, Debug, PartialEq, Eq, Drop)]
pub enum Stop {
    /// It is of another shape.
    Misfit,
    /// Memory is refused.
    NoMemory,
}

impl From<AllocError> for Stop {
    ghost from_gives = { λ _ stop. stop ≡ NoMemory };

    fn from(_error: AllocError) -> Stop {
        Stop::NoMemory
    }
}

impl<T: Drop> From<AllocFailed<T>> for Stop {
    ghost from_gives = { λ _ stop. stop ≡ NoMemory };

    fn from(_error: AllocFailed<T>) -> Stop {
        Stop::NoMemory
    }
}

/// The place of the first bad part, if any.
#[derive(Debug, Drop)]
pub struct Bad {
    pub first: Option<usize>,
}

impl Bad {
    /// No part is bad so far.
    pub fn none() -> Bad
        ensures exact { result.first ≡ None }
    {
        Bad { first: None }
    }

    /// Notes a bad part; an earlier one stays.
    pub fn note(&mut self, place: usize)
        ensures exact { self.new.first ≡ noted self.old.first place }
    {
        if self.first.is_none() {
            self.first = Some(place);
        }
    }
}

// Whether octets are digits alone.
fn are_digits(octets: &[u8]) -> bool
    ensures exact { result ≡ list_all is_ascii_digit octets.now }
{
    octets.iter().all(|octet| octet.is_ascii_digit())
}

// Whether a word is a number (RFC 3641 section 3.2): `0`, or digits of which the first is not 0.
fn is_number(text: &str) -> bool
    ensures exact { result ≡ is_number text.now }
{
    match text.as_bytes().split_first() {
        Some((first, rest)) => {
            first.is_ascii_digit() && are_digits(rest) && (*first != b'0' || rest.is_empty())
        }
        None => false,
    }
}

// The value of digits, where it is at most so much.
fn at_most(most: u32, digits: &str) -> Option<u32>
    requires { IsTrue (is_number digits.now) }
    ensures exact { result ≡ at_most most digits.now }
{
    match digits.parse::<u32>() {
        Ok(value) => { if value <= most { Some(value) } else { None } }
        Err(_) => None,
    }
}

/// A number of at most so much; one that is larger is a bad part, and 0 stands for it.
#[tactic(auto, unfolding(crate::specs::Reading::number))]
pub fn number(tree: &Tree, most: u32, bad: &mut Bad) -> Result<u32, Stop>
    ensures read { Reads (λ value. value) result bad.new.first (number most (shape_of tree.now) bad.old.first) }
{
    let word = tree.word().ok_or(Stop::Misfit)?;
    if !is_number(word.text.as_str()) {
        return Err(Stop::Misfit);
    }
    match at_most(most, word.text.as_str()) {
        Some(value) => Ok(value),
        None => {
            bad.note(word.place);
            Ok(0)
        }
    }
}
