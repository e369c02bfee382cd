//! An attribute's type and a value that is asserted of it (RFC 4511 4.1.6).

ghost use Rattle.std.specs.Prelude.{◌≡◌, ◌++◌, OnOk};
ghost use Rattle.ber_elements.specs.write.Element.{IsTag};
ghost use Rattle.ber_layout.specs.Layouts.{writes};
ghost use Rattle.ber_layout.specs.Spellings.{Extends, element_octets};
ghost use Rattle.ldap_filter.specs.Assertion.{assertion_layout};

use ber_layout::{Laid, NoMemory, ReadFault, enclose, put_element, required};
use plain_values::Octets;
use std::alloc::Global;

/// A type and a value.
#[derive(Debug, Drop)]
pub struct Assertion {
    pub kind: Octets,
    pub value: Octets,
}

impl Laid for Assertion {
    ghost use Rattle.ldap_filter.specs.Assertion.{assertion_layout, assertion_parts};

    ghost layout = { assertion_layout };

    ghost parts = { assertion_parts };

    #[tactic(auto, unfolding(ber_layout::specs::Layouts::reads_into))]
    fn read(alloc: Global, content: &[u8]) -> Result<Assertion, ReadFault> {
        let kind = required::<Octets>(alloc, 0x04, content)?;
        let value = required::<Octets>(alloc, 0x04, kind.rest)?;
        if !value.rest.is_empty() {
            return Err(ReadFault::BadMessage);
        }
        Ok(Assertion {
            kind: kind.value,
            value: value.value,
        })
    }

    fn put(&self, out: &mut Vec<u8>) -> Result<(), NoMemory> {
        put_pair(out, self.kind.as_slice(), self.value.as_slice())
    }
}

pub(crate) fn put_pair(out: &mut Vec<u8>, kind: &[u8], value: &[u8]) -> Result<(), NoMemory>
    ensures ok { OnOk result (out.new.items ≡ out.old.items ++ writes assertion_layout (kind.now, (value.now, tt))) }
    ensures kept { Extends out.old.items out.new.items }
{
    put_element(out, 0x04, kind)?;
    put_element(out, 0x04, value)
}

/// Appends an element of a type and a value.
pub fn put_assertion(out: &mut Vec<u8>, tag: u8, kind: &[u8], value: &[u8]) -> Result<(), NoMemory>
    requires { IsTag tag }
    ensures ok { OnOk result (out.new.items ≡ out.old.items ++ element_octets tag (writes assertion_layout (kind.now, (value.now, tt)))) }
    ensures kept { Extends out.old.items out.new.items }
{
    let start = out.len();
    put_pair(out, kind, value)?;
    enclose(out, tag, start)
}
