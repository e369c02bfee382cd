//! Elements written: the content first, and then its header before it, so that no length is counted beforehand.

ghost use Rattle.std.specs.Prelude.{◌≡◌, ℕ, ◌<◌, ◌≤◌, ◌^◌, ◌+◌, ◌++◌, [], pos, take, drop, length, map, OnOk, OnErr};
ghost use Rattle.std.specs.List.{slice_rotate_right};
ghost use Rattle.ber_elements.specs.write.Element.{IsTag};
ghost use Rattle.ber_elements.specs.Integer.{int_octets};
ghost use Rattle.ber_layout.specs.components.Flags.{flag_octets};
ghost use Rattle.ber_layout.specs.Layouts.{IsShort, writes};
ghost use Rattle.ber_layout.specs.Layouts.Layout.{AnyOctets, End, Each};
ghost use Rattle.ber_layout.specs.Spellings.{Extends, element_octets, optional_octets, marked_octets, each_octets};

use crate::kinds::NoMemory;
use crate::laid::Laid;
use ber_elements::{header_len, int_len, put_header, put_int};
use plain_values::Octets;
use std::alloc::AllocError;

// Moves the last octets, `by` of them, to `start`.
fn move_back(octets: &mut [u8], start: usize, by: usize)
    requires start { start ≤ length octets.old }
    requires by { start + by ≤ length octets.old }
    requires few { by ≤ 6 }
    ensures { octets.new ≡ take start octets.old ++ slice_rotate_right (drop start octets.old) by }
{
    let (_, behind) = octets.split_at_mut(start);
    to_front(behind, by);
}

// Moves the last two octets, the header of a short content, before all others.
fn two_to_front(octets: &mut [u8])
    requires { 2 ≤ length octets.old }
    ensures { octets.new ≡ slice_rotate_right octets.old 2 }
{
    let rest = octets.len() - 2;
    let mut last = [0; 2];
    last.copy_from_slice(&octets[rest..]);
    octets.copy_within(..rest, 2);
    octets[..2].copy_from_slice(&last);
}

// Moves the last octets, `by` of them, before all others.
fn to_front(octets: &mut [u8], by: usize)
    requires by { by ≤ length octets.old }
    requires few { by ≤ 6 }
    ensures { octets.new ≡ slice_rotate_right octets.old by }
{
    if by == 2 {
        two_to_front(octets);
        return;
    }
    let rest = octets.len() - by;
    let mut last = [0; 6];
    last[..by].copy_from_slice(&octets[rest..]);
    octets.copy_within(..rest, by);
    octets[..by].copy_from_slice(&last[..by]);
}

/// Makes the octets from `start` on the content of an element: puts its header before them. The
/// error comes where memory is wanted, or the content has 2^32 octets or more.
pub fn enclose(out: &mut Vec<u8>, tag: u8, start: usize) -> Result<(), NoMemory>
    requires tag { IsTag tag }
    requires start { start ≤ length out.old.items }
    ensures ok { OnOk result (out.new.items ≡ take start out.old.items ++ element_octets tag (drop start out.old.items)) }
    // What was enclosed has a length that can be written.
    ensures short { OnOk result (IsShort (drop start out.old.items)) }
    ensures err { OnErr result (out.new.items ≡ out.old.items) }
{
    let whole = out.len();
    let len = whole - start;
    if len >= 4_294_967_296 {
        return Err(AllocError);
    }
    put_header(out, tag, len)?;
    move_back(out.as_mut_slice(), start, header_len(len));
    Ok(())
}

/// Appends an element of these octets. The error comes where memory is wanted, or they are 2^32 or
/// more; `out` has then what it had, and may have more.
#[tactic(auto, unfolding(crate::specs::Spellings::element_octets))]
pub fn put_element(out: &mut Vec<u8>, tag: u8, content: &[u8]) -> Result<(), NoMemory>
    requires { IsTag tag }
    ensures ok { OnOk result (out.new.items ≡ out.old.items ++ element_octets tag content.now) }
    ensures short { OnOk result (IsShort content.now) }
    ensures kept { Extends out.old.items out.new.items }
{
    if content.len() >= 4_294_967_296 {
        return Err(AllocError);
    }
    put_header(out, tag, content.len())?;
    out.extend_from_slice(content)
}

/// Appends an element of these octets, where there are some.
pub fn put_optional(out: &mut Vec<u8>, tag: u8, value: &Option<Octets>) -> Result<(), NoMemory>
    requires { IsTag tag }
    ensures ok { OnOk result (out.new.items ≡ out.old.items ++ optional_octets tag (λ octets. octets) value.now) }
    ensures kept { Extends out.old.items out.new.items }
{
    match value {
        None => Ok(()),
        Some(octets) => put_element(out, tag, octets.as_slice()),
    }
}

/// Appends a number's element, an INTEGER or ENUMERATED by its tag.
#[tactic(auto, unfolding(crate::specs::Spellings::element_octets))]
pub fn put_number(out: &mut Vec<u8>, tag: u8, number: u32) -> Result<(), NoMemory>
    requires { IsTag tag }
    ensures ok { OnOk result (out.new.items ≡ out.old.items ++ element_octets tag (int_octets (pos number))) }
    ensures kept { Extends out.old.items out.new.items }
{
    put_header(out, tag, int_len(i64::from(number)))?;
    put_int(out, i64::from(number))
}

/// Appends a BOOLEAN's element.
pub fn put_flag(out: &mut Vec<u8>, tag: u8, flag: bool) -> Result<(), NoMemory>
    requires { IsTag tag }
    ensures ok { OnOk result (out.new.items ≡ out.old.items ++ element_octets tag (flag_octets flag)) }
    ensures kept { Extends out.old.items out.new.items }
{
    if flag {
        put_element(out, tag, &[255])
    } else {
        put_element(out, tag, &[0])
    }
}

/// Appends a BOOLEAN's element where it is TRUE.
pub fn put_mark(out: &mut Vec<u8>, tag: u8, flag: bool) -> Result<(), NoMemory>
    requires { IsTag tag }
    ensures ok { OnOk result (out.new.items ≡ out.old.items ++ marked_octets tag flag) }
    ensures kept { Extends out.old.items out.new.items }
{
    if flag {
        return put_element(out, tag, &[255]);
    }
    Ok(())
}

/// Appends an element of the value.
pub fn put_inside<T: Laid>(out: &mut Vec<u8>, tag: u8, value: &T) -> Result<(), NoMemory>
    requires { IsTag tag }
    ensures ok { OnOk result (out.new.items ≡ out.old.items ++ element_octets tag (writes T.layout (T.parts value.now))) }
    ensures kept { Extends out.old.items out.new.items }
{
    let start = out.len();
    value.put(out)?;
    enclose(out, tag, start)
}

fn put_each<T: Laid>(out: &mut Vec<u8>, tag: u8, values: &[T]) -> Result<(), NoMemory>
    requires { IsTag tag }
    ensures ok { OnOk result (out.new.items ≡ out.old.items ++ each_octets tag (writes T.layout) (map T.parts values.now)) }
    ensures kept { Extends out.old.items out.new.items }
{
    for value in values {
        put_inside(out, tag, value)?;
    }
    Ok(())
}

/// Appends an element of these octets for each value.
pub fn put_each_octets(out: &mut Vec<u8>, tag: u8, values: &[Octets]) -> Result<(), NoMemory>
    requires { IsTag tag }
    ensures ok { OnOk result (out.new.items ≡ out.old.items ++ each_octets tag (λ octets. octets) values.now) }
    ensures kept { Extends out.old.items out.new.items }
{
    put_each::<Octets>(out, tag, values)
}

/// Appends an element with the tag `outer` that holds an element with the tag `tag` for each value.
pub fn put_list<T: Laid>(
    out: &mut Vec<u8>,
    outer: u8,
    tag: u8,
    values: &[T],
) -> Result<(), NoMemory>
    requires outer { IsTag outer }
    requires tag { IsTag tag }
    ensures ok { OnOk result (out.new.items ≡ out.old.items ++ element_octets outer (writes (Each tag T.layout End) (map T.parts values.now, tt))) }
    ensures kept { Extends out.old.items out.new.items }
{
    let start = out.len();
    put_each(out, tag, values)?;
    enclose(out, outer, start)
}

/// The same for octets.
pub fn put_octets_list(
    out: &mut Vec<u8>,
    outer: u8,
    tag: u8,
    values: &[Octets],
) -> Result<(), NoMemory>
    requires outer { IsTag outer }
    requires tag { IsTag tag }
    ensures ok { OnOk result (out.new.items ≡ out.old.items ++ element_octets outer (writes (Each tag AnyOctets End) (values.now, tt))) }
    ensures kept { Extends out.old.items out.new.items }
{
    put_list::<Octets>(out, outer, tag, values)
}
