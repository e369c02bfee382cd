//! Extended requests (RFC 4511 4.12).

ghost use Rattle.std.specs.Prelude.{◌≡◌, ◌++◌, OnOk};
ghost use Rattle.ber_layout.specs.Layouts.{reads, writes};
ghost use Rattle.ber_layout.specs.element.Reading.{Gives};
ghost use Rattle.ber_layout.specs.Spellings.{Extends};
ghost use Rattle.ldap_msg.specs.Kinds.{extended_layout};

use crate::kinds::NoMemory;
use ber_layout::{ReadFault, is_further_but, optional_octets, put_element, put_optional, required};
use plain_values::Octets;
use std::alloc::Global;

/// The name and the value that a content says.
#[tactic(auto, unfolding(ber_layout::specs::Layouts::reads_into))]
pub fn extended(alloc: Global, content: &[u8]) -> Result<(Octets, Option<Octets>), ReadFault>
    ensures { Gives (λ found. (found.0, (found.1, tt))) result (reads extended_layout content.now) }
{
    let name = required::<Octets>(alloc, 0x80, content)?;
    let value = optional_octets(alloc, 0x81, name.rest)?;
    if !is_further_but(0x81, value.rest) {
        return Err(ReadFault::BadMessage);
    }
    Ok((name.value, value.value))
}

/// Appends the content of an extended request.
pub fn put_extended(out: &mut Vec<u8>, name: &[u8], value: &Option<Octets>) -> Result<(), NoMemory>
    ensures ok { OnOk result (out.new.items ≡ out.old.items ++ writes extended_layout (name.now, (value.now, tt))) }
    ensures kept { Extends out.old.items out.new.items }
{
    put_element(out, 0x80, name)?;
    put_optional(out, 0x81, value)
}
