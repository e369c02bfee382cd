//! Headers read.

ghost use Rattle.std.specs.Prelude.{◌≡◌};
ghost use Rattle.ber_elements.specs.declared.kinds.Header.{Header};
ghost use Rattle.ber_elements.specs.Heading.{IsHeading, length_at, header_at};

use crate::kinds::Header;
use crate::number::number_of;

#[tactic(auto, unfolding(crate::specs::Heading::length_at))]
fn length(tag: u8, octets: &[u8]) -> Header
    ensures { result ≡ length_at tag octets.now }
{
    match octets {
        [] => Header::Short,
        [first, number @ ..] => {
            if *first < 128 {
                return Header::Head {
                    tag,
                    head: 2,
                    len: *first as usize,
                };
            }
            if *first == 128 {
                return Header::Bad;
            }
            if *first > 132 {
                return Header::Bad;
            }
            let count = (*first - 128) as usize;
            if number.len() < count {
                return Header::Short;
            }
            Header::Head {
                tag,
                head: count + 2,
                len: number_of(0, &number[..count]) as usize,
            }
        }
    }
}

#[tactic(auto, unfolding(crate::specs::Heading::header_at))]
fn heading(bytes: &[u8]) -> Header
    ensures { result ≡ header_at bytes.now }
{
    match bytes {
        [] => Header::Short,
        [tag, octets @ ..] => {
            if *tag % 32 == 31 {
                return Header::Bad;
            }
            length(*tag, octets)
        }
    }
}

/// What stands at the front of some octets: the header of an element, the front of one, or neither
/// (X.690 8.1.2 and 8.1.3). The content needn't be there. A length is in the short form, or in the
/// long form of one to four octets, shortest or not. This takes no memory.
pub fn header(bytes: &[u8]) -> Header
    // The answer is the one that the octets have.
    ensures found { IsHeading bytes.now result }
    // They have no other.
    ensures only { (other : Header) → IsHeading bytes.now other → result ≡ other }
    ensures exact { result ≡ header_at bytes.now }
{
    heading(bytes)
}
