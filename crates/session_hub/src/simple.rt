//! Simple binds read where they lie, so that nothing of what other requests need is cleared or copied for them.

ghost use Rattle.std.specs.Prelude.{◌≡◌, ◌≤◌, IfSome, Some};
ghost use Rattle.session_model.specs.ber_layout.element.Pieces.{number_in, tagged_at};
ghost use Rattle.session_model.specs.ber_layout.element.Reading.{Finds, piece_view};
ghost use Rattle.session_model.specs.ldap_msg.Binds.{bind_of};
ghost use Rattle.session_model.specs.ldap_msg.reading.Messages.{message_in};
ghost use Rattle.session_hub.specs.SimpleBinds.{credentials_of, simple_in, message_for, says_no_controls};

use session_model::ber_elements::read_int;
use session_model::ber_layout::{Element, begins, first_element, is_further, is_further_but};
use session_model::ldap_msg::Operation;

/// The greatest messageID (RFC 4511 4.1.1).
const MAX_ID: u32 = 2_147_483_647;

/// The tag of the controls of a message (RFC 4511 4.1.1).
const CONTROLS: u8 = 0xa0;

/// A simple bind of version 3: the number of its message, the name and the password.
#[derive(Clone, Copy, Debug)]
pub struct SimpleBind<'a> {
    pub id: u32,
    pub name: &'a [u8],
    pub password: &'a [u8],
}

/// The name and the password of a bind.
#[derive(Clone, Copy, Debug)]
struct Credentials<'a> {
    name: &'a [u8],
    password: &'a [u8],
}

/// The element at the front, where it has this tag.
fn element_with(tag: u8, octets: &[u8]) -> Option<Element<'_>>
    ensures { Finds piece_view result (tagged_at tag octets.now) }
{
    let found = first_element(octets)?;
    if found.tag == tag { Some(found) } else { None }
}

/// The number from `low` to `high` that is the content of an INTEGER.
fn number_of(low: u32, high: u32, content: &[u8]) -> Option<u32>
    ensures exact { result ≡ number_in low high content.now }
    ensures most { IfSome result (λ number. number ≤ high) }
{
    match read_int(content) {
        None => None,
        Some(value) => {
            if value < i64::from(low) {
                return None;
            }
            if value > i64::from(high) {
                return None;
            }
            Some(value as u32)
        }
    }
}

/// The credentials in the content of a simple bind of version 3. None comes for any other content.
fn credentials_in(content: &[u8]) -> Option<Credentials<'_>>
    ensures { Finds (λ found. (found.name.now, found.password.now)) result (credentials_of (bind_of content.now)) }
{
    let version = element_with(0x02, content)?;
    let name = element_with(0x04, version.rest)?;
    let auth = first_element(name.rest)?;
    if number_of(1, 127, version.content)? != 3 || auth.tag != 0x80 || !is_further(auth.rest) {
        return None;
    }
    Some(Credentials {
        name: name.content,
        password: auth.content,
    })
}

/// Whether what follows an operation says no controls: they are absent, or a list of none.
fn has_no_controls(octets: &[u8]) -> bool
    ensures { result ≡ says_no_controls octets.now }
{
    if !begins(CONTROLS, octets) {
        return is_further_but(CONTROLS, octets);
    }
    match element_with(CONTROLS, octets) {
        Some(controls) => { controls.content.is_empty() && is_further_but(CONTROLS, controls.rest) }
        None => false,
    }
}

/// The simple bind of version 3 that the content of a message says, where it is one and has no controls. None comes for any
/// other content. This takes no memory.
pub fn bind_in(content: &[u8]) -> Option<SimpleBind<'_>>
    ensures message { IfSome result (λ bind. message_in content.now ≡ Some (message_for bind)) }
    ensures exact { Finds (λ bind. (bind.id, (bind.name.now, bind.password.now))) result (simple_in (message_in content.now)) }
    ensures id { IfSome result (λ bind. bind.id ≤ 2147483647) }
{
    let first = element_with(0x02, content)?;
    let id = number_of(1, MAX_ID, first.content)?;
    let operation = first_element(first.rest)?;
    if operation.tag != Operation::Bind.tag() {
        return None;
    }
    if !has_no_controls(operation.rest) {
        return None;
    }
    let Credentials { name, password } = credentials_in(operation.content)?;
    Some(SimpleBind { id, name, password })
}
