//! Bind requests (RFC 4511 4.2).

ghost use Rattle.std.specs.Prelude.{◌≡◌, ◌++◌, OnOk, Some};
ghost use Rattle.ber_layout.specs.Layouts.{writes};
ghost use Rattle.ber_layout.specs.element.Reading.{Gives};
ghost use Rattle.ber_layout.specs.Spellings.{Extends, element_octets};
ghost use Rattle.ldap_msg.specs.Binds.{bind_layout, bind_of, bind_parts, auth_from, auth_parts, HasTag};

use crate::kinds::{Auth, BindRequest, NoMemory};
use ber_layout::{Laid, ReadFault, any, integer, is_further, put_element, put_number, required};
use plain_values::Octets;
use std::alloc::Global;

#[tactic(auto, unfolding(ber_layout::specs::Layouts::reads_into))]
fn auth(alloc: Global, tag: u8, content: &[u8]) -> Result<Auth, ReadFault>
    ensures { Gives (λ value. value) result (Some (auth_from (tag, content.now))) }
{
    if tag == 0x80 {
        return Ok(Auth::Simple(Octets::read(alloc, content)?));
    }
    Ok(Auth::Other(tag))
}

/// The bind request that a content says.
#[tactic(auto, unfolding(ber_layout::specs::Layouts::reads_into))]
pub fn bind(alloc: Global, content: &[u8]) -> Result<BindRequest, ReadFault>
    ensures { Gives (λ value. value) result (bind_of content.now) }
{
    let version = integer(0x02, 1, 127, content)?;
    let name = required::<Octets>(alloc, 0x04, version.rest)?;
    let element = any(name.rest)?;
    if !is_further(element.rest) {
        return Err(ReadFault::BadMessage);
    }
    let auth = auth(alloc, element.tag, element.content)?;
    Ok(BindRequest {
        version: version.value as u8,
        name: name.value,
        auth,
    })
}

fn put_auth(out: &mut Vec<u8>, auth: &Auth) -> Result<(), NoMemory>
    requires { HasTag auth.now }
    ensures ok { OnOk result (out.new.items ≡ out.old.items ++ element_octets (auth_parts auth.now).0 (auth_parts auth.now).1) }
    ensures kept { Extends out.old.items out.new.items }
{
    match auth {
        Auth::Simple(password) => put_element(out, 0x80, password.as_slice()),
        Auth::Other(tag) => put_element(out, *tag, &[]),
    }
}

/// Appends the content of a bind request.
pub fn put_bind(out: &mut Vec<u8>, request: &BindRequest) -> Result<(), NoMemory>
    requires { HasTag request.now.auth }
    ensures ok { OnOk result (out.new.items ≡ out.old.items ++ writes bind_layout (bind_parts request.now)) }
    ensures kept { Extends out.old.items out.new.items }
{
    put_number(out, 0x02, u32::from(request.version))?;
    put_element(out, 0x04, request.name.as_slice())?;
    put_auth(out, &request.auth)
}
