//! Attributes, and changes of them (RFC 4511 4.1.7, 4.6).

ghost use Rattle.std.specs.Prelude.{◌≡◌};
ghost use Rattle.ldap_msg.specs.Attributes.{operation_number};

use crate::kinds::{Change, KindValues, ModifyOperation, NoMemory, OtherOperation};
use ber_layout::{
    Laid, ReadFault, integer, octets_list, put_element, put_inside, put_number, put_octets_list,
    required,
};
use plain_values::Octets;
use std::alloc::Global;

impl ModifyOperation {
    /// The operation's number.
    pub fn number(self) -> u8
        ensures { result ≡ operation_number self }
    {
        match self {
            ModifyOperation::Add => 0,
            ModifyOperation::Delete => 1,
            ModifyOperation::Replace => 2,
            ModifyOperation::Other(other) => other.number,
        }
    }

    /// The operation of the number.
    pub fn of(number: u8) -> ModifyOperation
        ensures { operation_number result ≡ number }
    {
        match number {
            0 => ModifyOperation::Add,
            1 => ModifyOperation::Delete,
            2 => ModifyOperation::Replace,
            _ => ModifyOperation::Other(OtherOperation { number }),
        }
    }
}

impl Laid for KindValues {
    ghost use Rattle.ldap_msg.specs.Attributes.{attribute_layout, attribute_parts};

    ghost layout = { attribute_layout };

    ghost parts = { attribute_parts };

    #[tactic(auto, unfolding(ber_layout::specs::Layouts::reads_into))]
    fn read(alloc: Global, content: &[u8]) -> Result<KindValues, ReadFault> {
        let kind = required::<Octets>(alloc, 0x04, content)?;
        let values = octets_list(alloc, 0x31, 0x04, kind.rest)?;
        if !values.rest.is_empty() {
            return Err(ReadFault::BadMessage);
        }
        Ok(KindValues {
            kind: kind.value,
            values: values.value,
        })
    }

    fn put(&self, out: &mut Vec<u8>) -> Result<(), NoMemory> {
        put_element(out, 0x04, self.kind.as_slice())?;
        put_octets_list(out, 0x31, 0x04, self.values.as_slice())
    }
}

impl Laid for Change {
    ghost use Rattle.ldap_msg.specs.Attributes.{change_layout, change_parts};

    ghost layout = { change_layout };

    ghost parts = { change_parts };

    #[tactic(auto, unfolding(ber_layout::specs::Layouts::reads_into))]
    fn read(alloc: Global, content: &[u8]) -> Result<Change, ReadFault> {
        let operation = integer(0x0a, 0, 127, content)?;
        let body = required::<KindValues>(alloc, 0x30, operation.rest)?;
        if !body.rest.is_empty() {
            return Err(ReadFault::BadMessage);
        }
        Ok(Change {
            operation: ModifyOperation::of(operation.value as u8),
            body: body.value,
        })
    }

    fn put(&self, out: &mut Vec<u8>) -> Result<(), NoMemory> {
        put_number(out, 0x0a, u32::from(self.operation.number()))?;
        put_inside(out, 0x30, &self.body)
    }
}
