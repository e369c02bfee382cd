//! Results (RFC 4511 4.1.9).

use crate::kinds::{LdapResult, NoMemory};
use crate::operations::ResultCode;
use ber_layout::{Laid, ReadFault, ignored, integer, put_element, put_number, required};
use plain_values::Octets;
use std::alloc::Global;

impl Laid for LdapResult {
    ghost use Rattle.ldap_msg.specs.Results.{result_layout, result_parts};

    ghost layout = { result_layout };

    ghost parts = { result_parts };

    #[tactic(auto, unfolding(ber_layout::specs::Layouts::reads_into))]
    fn read(alloc: Global, content: &[u8]) -> Result<LdapResult, ReadFault> {
        let code = integer(0x0a, 0, 127, content)?;
        let matched = required::<Octets>(alloc, 0x04, code.rest)?;
        let rest = ignored(0x04, matched.rest)?;
        if !rest.is_empty() {
            return Err(ReadFault::BadMessage);
        }
        Ok(LdapResult {
            code: ResultCode::numbered(code.value as u8),
            matched: matched.value,
        })
    }

    fn put(&self, out: &mut Vec<u8>) -> Result<(), NoMemory> {
        put_number(out, 0x0a, u32::from(self.code.number()))?;
        put_element(out, 0x04, self.matched.as_slice())?;
        put_element(out, 0x04, &[])
    }
}
