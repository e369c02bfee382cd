//! Modify, add, rename and compare requests (RFC 4511 4.6, 4.7, 4.9, 4.10).

use crate::kinds::{
    AddRequest, Change, CompareRequest, KindValues, ModifyRequest, NoMemory, RenameRequest,
};
use ber_layout::{
    Laid, ReadFault, flag, is_further, is_further_but, list, optional_octets, put_element,
    put_flag, put_list, put_optional, required,
};
use ldap_filter::{Assertion, put_assertion};
use plain_values::Octets;
use std::alloc::Global;

impl Laid for ModifyRequest {
    ghost use Rattle.ldap_msg.specs.Kinds.{modify_layout, modify_parts};

    ghost layout = { modify_layout };

    ghost parts = { modify_parts };

    #[tactic(auto, unfolding(ber_layout::specs::Layouts::reads_into))]
    fn read(alloc: Global, content: &[u8]) -> Result<ModifyRequest, ReadFault> {
        let name = required::<Octets>(alloc, 0x04, content)?;
        let changes = list::<Change>(alloc, 0x30, 0x30, name.rest)?;
        if !is_further(changes.rest) {
            return Err(ReadFault::BadMessage);
        }
        Ok(ModifyRequest {
            name: name.value,
            changes: changes.value,
        })
    }

    fn put(&self, out: &mut Vec<u8>) -> Result<(), NoMemory> {
        put_element(out, 0x04, self.name.as_slice())?;
        put_list::<Change>(out, 0x30, 0x30, self.changes.as_slice())
    }
}

impl Laid for AddRequest {
    ghost use Rattle.ldap_msg.specs.Kinds.{add_layout, add_parts};

    ghost layout = { add_layout };

    ghost parts = { add_parts };

    #[tactic(auto, unfolding(ber_layout::specs::Layouts::reads_into))]
    fn read(alloc: Global, content: &[u8]) -> Result<AddRequest, ReadFault> {
        let name = required::<Octets>(alloc, 0x04, content)?;
        let attributes = list::<KindValues>(alloc, 0x30, 0x30, name.rest)?;
        if !is_further(attributes.rest) {
            return Err(ReadFault::BadMessage);
        }
        Ok(AddRequest {
            name: name.value,
            attributes: attributes.value,
        })
    }

    fn put(&self, out: &mut Vec<u8>) -> Result<(), NoMemory> {
        put_element(out, 0x04, self.name.as_slice())?;
        put_list::<KindValues>(out, 0x30, 0x30, self.attributes.as_slice())
    }
}

impl Laid for RenameRequest {
    ghost use Rattle.ldap_msg.specs.Kinds.{rename_layout, rename_parts};

    ghost layout = { rename_layout };

    ghost parts = { rename_parts };

    #[tactic(auto, unfolding(ber_layout::specs::Layouts::reads_into))]
    fn read(alloc: Global, content: &[u8]) -> Result<RenameRequest, ReadFault> {
        let name = required::<Octets>(alloc, 0x04, content)?;
        let new_rdn = required::<Octets>(alloc, 0x04, name.rest)?;
        let delete_old = flag(0x01, new_rdn.rest)?;
        let superior = optional_octets(alloc, 0x80, delete_old.rest)?;
        if !is_further_but(0x80, superior.rest) {
            return Err(ReadFault::BadMessage);
        }
        Ok(RenameRequest {
            name: name.value,
            new_rdn: new_rdn.value,
            delete_old: delete_old.value,
            superior: superior.value,
        })
    }

    fn put(&self, out: &mut Vec<u8>) -> Result<(), NoMemory> {
        put_element(out, 0x04, self.name.as_slice())?;
        put_element(out, 0x04, self.new_rdn.as_slice())?;
        put_flag(out, 0x01, self.delete_old)?;
        put_optional(out, 0x80, &self.superior)
    }
}

impl Laid for CompareRequest {
    ghost use Rattle.ldap_msg.specs.Kinds.{compare_layout, compare_parts};

    ghost layout = { compare_layout };

    ghost parts = { compare_parts };

    #[tactic(auto, unfolding(ber_layout::specs::Layouts::reads_into))]
    fn read(alloc: Global, content: &[u8]) -> Result<CompareRequest, ReadFault> {
        let name = required::<Octets>(alloc, 0x04, content)?;
        let assertion = required::<Assertion>(alloc, 0x30, name.rest)?;
        if !is_further(assertion.rest) {
            return Err(ReadFault::BadMessage);
        }
        let Assertion { kind, value } = assertion.value;
        Ok(CompareRequest {
            name: name.value,
            kind,
            value,
        })
    }

    fn put(&self, out: &mut Vec<u8>) -> Result<(), NoMemory> {
        put_element(out, 0x04, self.name.as_slice())?;
        put_assertion(out, 0x30, self.kind.as_slice(), self.value.as_slice())
    }
}
