//! Values as text.

ghost use Rattle.std.specs.Prelude.{◌≡◌, ◌++◌, [], OnOk, string_bytes};
ghost use Rattle.gser_tree.specs.Writing.{text_of, print_choice, print_component, print_number, separator, ending};

use std::alloc::AllocError;

/// Writes a number in decimal.
pub fn put_number(out: &mut String, value: u32) -> Result<(), AllocError>
    ensures ok { OnOk result (string_bytes out.new ≡ string_bytes out.old ++ text_of (print_number value)) }
{
    write!(out, "{value}")
}

/// Writes what stands before a member in braces: the brace itself before the first.
pub fn put_separator(out: &mut String, first: bool) -> Result<(), AllocError>
    ensures ok { OnOk result (string_bytes out.new ≡ string_bytes out.old ++ text_of (separator first)) }
{
    if first {
        out.push_str("{ ")
    } else {
        out.push_str(", ")
    }
}

/// Writes the end of braces: both braces where there is no member.
pub fn put_end(out: &mut String, first: bool) -> Result<(), AllocError>
    ensures ok { OnOk result (string_bytes out.new ≡ string_bytes out.old ++ text_of (ending first)) }
{
    if first {
        out.push_str("{ }")
    } else {
        out.push_str(" }")
    }
}

/// Writes what stands before the value of a component in braces.
pub fn put_name(out: &mut String, first: bool, name: &str) -> Result<(), AllocError>
    ensures ok { OnOk result (string_bytes out.new
        ≡ string_bytes out.old ++ text_of (separator first ++ print_component name.now [])) }
{
    put_separator(out, first)?;
    out.push_str(name)?;
    out.push_str(" ")
}

/// Writes what stands before the value of a choice.
pub fn put_kind(out: &mut String, kind: &str) -> Result<(), AllocError>
    ensures ok { OnOk result (string_bytes out.new
        ≡ string_bytes out.old ++ text_of (print_choice kind.now [])) }
{
    out.push_str(kind)?;
    out.push_str(":")
}
