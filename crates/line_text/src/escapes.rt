//! Octets written into one line.

ghost use Rattle.std.specs.Prelude.{◌≡◌, ◌++◌, OnOk, OnErr};
ghost use Rattle.line_text.specs.Escapes.{one_line, one_line_octet, escaped, escaped_octet};

use std::alloc::AllocError;

// Writes an octet that ends no line, or its escape.
fn put_line_octet(octet: u8, out: &mut Vec<u8>) -> Result<(), AllocError>
    ensures ok { OnOk result (out.new.items ≡ out.old.items ++ one_line_octet octet) }
    ensures err { OnErr result (out.new.items ≡ out.old.items) }
{
    match octet {
        b'\n' => out.extend_from_slice(b"\\0a"),
        b'\r' => out.extend_from_slice(b"\\0d"),
        _ => Ok(out.push(octet)?),
    }
}

// Writes an octet so that it is read back.
fn put_escaped_octet(octet: u8, out: &mut Vec<u8>) -> Result<(), AllocError>
    ensures ok { OnOk result (out.new.items ≡ out.old.items ++ escaped_octet octet) }
    ensures err { OnErr result (out.new.items ≡ out.old.items) }
{
    match octet {
        b'\\' => out.extend_from_slice(b"\\5c"),
        _ => put_line_octet(octet, out),
    }
}

/// Writes octets into one line: LF as `\0a` and CR as `\0d`. After the error, want of memory, `out` is as before.
pub fn put_one_line(octets: &[u8], out: &mut Vec<u8>) -> Result<(), AllocError>
    ensures ok { OnOk result (out.new.items ≡ out.old.items ++ one_line octets.now) }
    ensures err { OnErr result (out.new.items ≡ out.old.items) }
{
    let before = out.len();
    for octet in octets {
        if put_line_octet(*octet, out).is_err() {
            out.truncate(before);
            return Err(AllocError);
        }
    }
    Ok(())
}

/// Writes octets into one line so that they are read back: LF as `\0a`, CR as `\0d` and the backslash as `\5c`. After the
/// error, want of memory, `out` is as before.
pub fn put_escaped(octets: &[u8], out: &mut Vec<u8>) -> Result<(), AllocError>
    ensures ok { OnOk result (out.new.items ≡ out.old.items ++ escaped octets.now) }
    ensures err { OnErr result (out.new.items ≡ out.old.items) }
{
    let before = out.len();
    for octet in octets {
        if put_escaped_octet(*octet, out).is_err() {
            out.truncate(before);
            return Err(AllocError);
        }
    }
    Ok(())
}
