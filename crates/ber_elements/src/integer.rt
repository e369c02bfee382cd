//! Integers read and written (X.690 8.3).

ghost use Rattle.std.specs.Prelude.{◌≡◌, ◌≤◌, ◌++◌, ◌∷◌, ℤ, Some, length, drop, IfSome, OnOk, OnErr};
ghost use Rattle.ber_elements.specs.Integer.{IsInteger, is_spare, is_shortest, signed_number, int_at, turned, trimmed, magnitude, int_octets};

use crate::kinds::NoMemory;
use crate::number::{number_of, turned_number_of};

fn is_spare(first: u8, second: u8) -> bool
    ensures { result ≡ is_spare first second }
{
    if second < 128 {
        first == 0
    } else {
        first == 255
    }
}

fn is_shortest(content: &[u8]) -> bool
    ensures { result ≡ is_shortest content.now }
{
    match content {
        [] => false,
        [_] => true,
        [first, second, ..] => !is_spare(*first, *second),
    }
}

fn signed_number(first: u8, rest: &[u8]) -> i64
    requires { length rest.now ≤ 7 }
    ensures { result ≡ signed_number (first ∷ rest.now) }
{
    if first < 128 {
        return number_of(first, rest) as i64;
    }
    -1 - (turned_number_of(255 - first, rest) as i64)
}

#[tactic(auto, unfolding(crate::specs::Integer::int_at))]
fn integer(content: &[u8]) -> Option<i64>
    ensures { result ≡ int_at content.now }
{
    if !is_shortest(content) {
        return None;
    }
    if content.len() > 8 {
        return None;
    }
    match content {
        [] => None,
        [first, rest @ ..] => Some(signed_number(*first, rest)),
    }
}

/// The integer that the content of an INTEGER or an ENUMERATED stands for. There is none where the
/// content has no octet or more than eight, or isn't the shortest form. This takes no memory.
pub fn read_int(content: &[u8]) -> Option<i64>
    ensures found { IfSome result (λ value. IsInteger content.now value × (length content.now ≤ 8)) }
    ensures only { (value : ℤ) → IsInteger content.now value → length content.now ≤ 8 → result ≡ Some value }
    ensures exact { result ≡ int_at content.now }
{
    integer(content)
}

fn magnitude(value: i64) -> u64
    ensures { result ≡ magnitude value }
{
    if value < 0 {
        return (-1 - value) as u64;
    }
    value as u64
}

fn spare_zeros(octets: &[u8]) -> usize
    ensures spare { drop result octets.now ≡ trimmed octets.now }
    ensures bound { result ≤ length octets.now }
{
    let mut spare = 0;
    while spare + 1 < octets.len() {
        if octets[spare] != 0 {
            return spare;
        }
        if octets[spare + 1] >= 128 {
            return spare;
        }
        spare += 1;
    }
    spare
}

fn turn(octets: &mut [u8])
    ensures { octets.new ≡ turned octets.old }
{
    for octet in octets.iter_mut() {
        *octet = 255 - *octet;
    }
}

fn put_behind(out: &mut Vec<u8>, octets: &[u8], spare: usize) -> Result<(), NoMemory>
    requires { spare ≤ length octets.now }
    ensures ok { OnOk result (out.new.items ≡ out.old.items ++ drop spare octets.now) }
    ensures err { OnErr result (out.new.items ≡ out.old.items) }
{
    out.extend_from_slice(&octets[spare..])
}

/// Appends the content of an INTEGER: the shortest two's complement form. After the error, want of
/// memory, `out` is as before.
pub fn put_int(out: &mut Vec<u8>, value: i64) -> Result<(), NoMemory>
    ensures ok { OnOk result (out.new.items ≡ out.old.items ++ int_octets value) }
    ensures err { OnErr result (out.new.items ≡ out.old.items) }
{
    let mut octets = magnitude(value).to_be_bytes();
    let spare = spare_zeros(&octets);
    if value < 0 {
        turn(&mut octets);
        return put_behind(out, &octets, spare);
    }
    put_behind(out, &octets, spare)
}

/// How many octets `put_int` appends. This takes no memory.
pub fn int_len(value: i64) -> usize
    ensures exact { result ≡ length (int_octets value) }
    ensures bound { result ≤ 8 }
{
    let octets = magnitude(value).to_be_bytes();
    octets.len() - spare_zeros(&octets)
}
