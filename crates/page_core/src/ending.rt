//! The end of a page, written.

ghost use Rattle.std.specs.Prelude.{◌≡◌, ◌++◌, [], ◌∷◌, OnOk, OnErr};
ghost use Rattle.ber_layout.specs.Layouts.{writes};
ghost use Rattle.ber_layout.specs.Spellings.{Extends, element_octets, optional_octets};
ghost use Rattle.ldap_msg.specs.Controls.{control_layout, control_parts, controls_layout, controls_parts};
ghost use Rattle.ldap_msg.specs.operations.Operations.{response_tag};
ghost use Rattle.ldap_msg.specs.Replies.{response_for, reply_layout, reply_content};
ghost use Rattle.page_core.specs.Values.{page_kind, page_layout, page_octets};
ghost use Rattle.page_core.specs.Endings.{done, end_control, end_parts, page_end, IsShortEnd};

use crate::page::{NoMemory, PAGE_KIND};
use ber_layout::{enclose, put_element, put_mark, put_number};

/// The content of a result with the code success, no matched name and no diagnostic message.
const SUCCESS: [u8; 7] = [0x0a, 1, 0, 0x04, 0, 0x04, 0];

// Appends the size 0 and the cookie.
fn put_parts(out: &mut Vec<u8>, cookie: &[u8]) -> Result<(), NoMemory>
    ensures ok { OnOk result (out.new.items ≡ out.old.items ++ writes page_layout (0, (cookie.now, tt))) }
    ensures kept { Extends out.old.items out.new.items }
{
    put_number(out, 0x02, 0)?;
    put_element(out, 0x04, cookie)
}

// Appends the value of the control.
fn put_value(out: &mut Vec<u8>, cookie: &[u8]) -> Result<(), NoMemory>
    ensures ok { OnOk result (out.new.items ≡ out.old.items ++ page_octets (record { size = 0; cookie = cookie.now })) }
    ensures kept { Extends out.old.items out.new.items }
{
    let start = out.len();
    put_parts(out, cookie)?;
    enclose(out, 0x30, start)
}

fn put_value_element(out: &mut Vec<u8>, cookie: &[u8]) -> Result<(), NoMemory>
    ensures ok { OnOk result (out.new.items ≡ out.old.items ++ element_octets 0x04 (page_octets (record { size = 0; cookie = cookie.now }))) }
    ensures kept { Extends out.old.items out.new.items }
{
    let start = out.len();
    put_value(out, cookie)?;
    enclose(out, 0x04, start)
}

// Appends the control's type, and that it isn't critical.
fn put_kind(out: &mut Vec<u8>) -> Result<(), NoMemory>
    ensures ok { OnOk result (out.new.items ≡ out.old.items ++ element_octets 0x04 page_kind) }
    ensures kept { Extends out.old.items out.new.items }
{
    put_element(out, 0x04, PAGE_KIND)?;
    put_mark(out, 0x01, false)
}

// Appends the control's type and its value.
fn put_control(out: &mut Vec<u8>, cookie: &[u8]) -> Result<(), NoMemory>
    ensures ok { OnOk result (out.new.items ≡ out.old.items ++ writes control_layout (control_parts (end_control cookie.now))) }
    ensures kept { Extends out.old.items out.new.items }
{
    put_kind(out)?;
    put_value_element(out, cookie)
}

fn put_control_element(out: &mut Vec<u8>, cookie: &[u8]) -> Result<(), NoMemory>
    ensures ok { OnOk result (out.new.items ≡ out.old.items ++ element_octets 0x30 (writes control_layout (control_parts (end_control cookie.now)))) }
    ensures kept { Extends out.old.items out.new.items }
{
    let start = out.len();
    put_control(out, cookie)?;
    enclose(out, 0x30, start)
}

fn put_controls(out: &mut Vec<u8>, cookie: &[u8]) -> Result<(), NoMemory>
    ensures ok { OnOk result (out.new.items ≡ out.old.items ++ optional_octets 0xa0 (writes controls_layout) (controls_parts (end_control cookie.now ∷ []))) }
    ensures kept { Extends out.old.items out.new.items }
{
    let start = out.len();
    put_control_element(out, cookie)?;
    enclose(out, 0xa0, start)
}

#[tactic(auto, unfolding(ber_layout::specs::Spellings::element_octets, ber_elements::specs::Integer::int_octets, ber_elements::specs::write::Spelling::length_octets))]
fn put_done(out: &mut Vec<u8>) -> Result<(), NoMemory>
    ensures ok { OnOk result (out.new.items ≡ out.old.items ++ element_octets (response_tag (response_for done)) (reply_content done)) }
    ensures kept { Extends out.old.items out.new.items }
{
    put_element(out, 0x65, &SUCCESS)
}

fn put_components(out: &mut Vec<u8>, id: u32, cookie: &[u8]) -> Result<(), NoMemory>
    ensures ok { OnOk result (out.new.items ≡ out.old.items ++ writes reply_layout (end_parts id cookie.now)) }
    ensures kept { Extends out.old.items out.new.items }
{
    put_number(out, 0x02, id)?;
    put_done(out)?;
    put_controls(out, cookie)
}

#[tactic(auto, unfolding(crate::specs::Endings::page_end))]
fn put_message(out: &mut Vec<u8>, id: u32, cookie: &[u8]) -> Result<(), NoMemory>
    ensures ok { OnOk result (out.new.items ≡ out.old.items ++ page_end id cookie.now) }
    ensures short { OnOk result (IsShortEnd id cookie.now) }
    ensures kept { Extends out.old.items out.new.items }
{
    let start = out.len();
    put_components(out, id, cookie)?;
    enclose(out, 0x30, start)
}

/// Appends the message that ends a page: a search done with the code success and the control of pages, not critical,
/// with the size 0 and the cookie (RFC 2696 2). After the error, want of memory, or a content of 2^32
/// octets or more, `out` is as before.
pub fn put_page_end(out: &mut Vec<u8>, id: u32, cookie: &[u8]) -> Result<(), NoMemory>
    ensures ok { OnOk result (out.new.items ≡ out.old.items ++ page_end id cookie.now) }
    // So it is read again, where the messageID is one.
    ensures short { OnOk result (IsShortEnd id cookie.now) }
    ensures err { OnErr result (out.new.items ≡ out.old.items) }
{
    let before = out.len();
    match put_message(out, id, cookie) {
        Ok(()) => Ok(()),
        Err(fault) => {
            out.truncate(before);
            Err(fault)
        }
    }
}
