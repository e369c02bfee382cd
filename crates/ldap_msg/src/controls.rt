//! Controls (RFC 4511 4.1.11).

ghost use Rattle.std.specs.Prelude.{◌≡◌, ◌++◌, OnOk, map, option_map};
ghost use Rattle.ber_layout.specs.components.Components.{optional_of};
ghost use Rattle.ber_layout.specs.Layouts.{reads, writes};
ghost use Rattle.ber_layout.specs.element.Reading.{Gives};
ghost use Rattle.ber_layout.specs.Spellings.{Extends, optional_octets as optional_spelling};
ghost use Rattle.ldap_msg.specs.Controls.{controls_layout, controls_parts, control_parts};

use crate::kinds::{Control, NoMemory};
use ber_layout::{
    Component, Laid, ReadFault, begins, list, marked, optional_octets, put_element, put_list,
    put_mark, put_optional, required,
};
use plain_values::{Octets, OneOrMany};
use std::alloc::Global;

impl Laid for Control {
    ghost use Rattle.ldap_msg.specs.Controls.{control_layout, control_parts};

    ghost layout = { control_layout };

    ghost parts = { control_parts };

    #[tactic(auto, unfolding(ber_layout::specs::Layouts::reads_into))]
    fn read(alloc: Global, content: &[u8]) -> Result<Control, ReadFault> {
        let kind = required::<Octets>(alloc, 0x04, content)?;
        let critical = marked(0x01, kind.rest)?;
        let value = optional_octets(alloc, 0x04, critical.rest)?;
        if !value.rest.is_empty() {
            return Err(ReadFault::BadMessage);
        }
        Ok(Control {
            kind: kind.value,
            critical: critical.value,
            value: value.value,
        })
    }

    fn put(&self, out: &mut Vec<u8>) -> Result<(), NoMemory> {
        put_element(out, 0x04, self.kind.as_slice())?;
        put_mark(out, 0x01, self.critical)?;
        put_optional(out, 0x04, &self.value)
    }
}

/// The controls at the front of what follows an operation, if there are any.
#[tactic(auto, unfolding(ber_layout::specs::components::Components::optional_of))]
pub fn controls(
    alloc: Global,
    bytes: &[u8],
) -> Result<Component<'_, Option<OneOrMany<Control>>>, ReadFault>
    ensures { Gives (λ found. record { value = option_map (λ controls. (map control_parts controls, tt)) found.value; rest = found.rest.now }) result (optional_of 0xa0 (reads controls_layout) bytes.now) }
{
    if !begins(0xa0, bytes) {
        return Ok(Component {
            value: None,
            rest: bytes,
        });
    }
    let found = list::<Control>(alloc, 0xa0, 0x30, bytes)?;
    Ok(Component {
        value: Some(found.value),
        rest: found.rest,
    })
}

/// Appends controls, where there are some.
pub fn put_controls(out: &mut Vec<u8>, controls: &[Control]) -> Result<(), NoMemory>
    ensures ok { OnOk result (out.new.items ≡ out.old.items ++ optional_spelling 0xa0 (writes controls_layout) (controls_parts controls.now)) }
    ensures kept { Extends out.old.items out.new.items }
{
    match controls {
        [] => Ok(()),
        [..] => put_list::<Control>(out, 0xa0, 0x30, controls),
    }
}
