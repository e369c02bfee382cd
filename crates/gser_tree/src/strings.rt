//! Strings, which stand in quotation marks with each quotation mark in them twice.

ghost use Rattle.std.specs.Prelude.{◌≡◌, ◌++◌, OnOk, OnErr, string_bytes};
ghost use Rattle.gser_tree.specs.Strings.{doubled, quoted, IsKept};
ghost use Rattle.gser_tree.specs.Writing.{text_of, print_string};

use std::alloc::AllocError;

// Writes the octets of a text, each quotation mark twice. What was written before stays.
#[tactic(auto, using(crate::proofs::strings::KeptLemmas::kept_more))]
fn put_doubled(out: &mut String, text: &str) -> Result<(), AllocError>
    ensures ok { OnOk result (string_bytes out.new ≡ string_bytes out.old ++ doubled text.now) }
    ensures kept { IsKept (string_bytes out.old) (string_bytes out.new) }
{
    let mut rest = text;
    'marks: while let Some((before, after)) = rest.split_once('"') {
        out.push_str(before)?;
        out.push_str("\"\"")?;
        rest = after;
    }
    Ok(out.push_str(rest)?)
}

// Writes a string of a text. What was written before stays.
#[tactic(auto, using(crate::proofs::strings::KeptLemmas::kept_more, crate::proofs::strings::KeptLemmas::kept_on))]
fn put_quoted(out: &mut String, text: &str) -> Result<(), AllocError>
    ensures ok { OnOk result (string_bytes out.new ≡ string_bytes out.old ++ quoted text.now) }
    ensures kept { IsKept (string_bytes out.old) (string_bytes out.new) }
{
    out.push('"')?;
    put_doubled(out, text)?;
    Ok(out.push('"')?)
}

/// Writes a string in quotation marks, each quotation mark in it twice. After the error, want of memory, `out` is as
/// before.
pub fn put_string(out: &mut String, text: &str) -> Result<(), AllocError>
    ensures ok { OnOk result (string_bytes out.new ≡ string_bytes out.old ++ text_of (print_string text.now)) }
    ensures err { OnErr result (string_bytes out.new ≡ string_bytes out.old) }
{
    let before = out.len();
    match put_quoted(out, text) {
        Ok(()) => Ok(()),
        Err(AllocError) => {
            out.truncate(before);
            Err(AllocError)
        }
    }
}
