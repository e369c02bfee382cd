//! Certificates as text.

ghost use Rattle.std.specs.Prelude.{◌≡◌, ◌++◌, OnOk, flat_map, map};
ghost use Rattle.dir_tree.specs.dn_names.Printing.{print_name};
ghost use Rattle.line_text.specs.Escapes.{one_line};
ghost use Rattle.certify.specs.Lines.{line_of, line_text, name_text};

use crate::lines::Line;
use dir_tree::NoMemory;
use dir_tree::dn_names::{Dn, print};
use line_text::put_one_line;
use std::alloc::Global;

// Writes a name.
fn put_printed(alloc: Global, name: &Dn, out: &mut Vec<u8>) -> Result<(), NoMemory>
    ensures ok { OnOk result (out.new.items ≡ out.old.items ++ one_line (print_name name.now)) }
{
    let mut text = String::new(alloc);
    print(alloc, name, &mut text)?;
    put_one_line(text.as_bytes(), out)
}

// Writes the name of a line, where it has one.
fn put_name(alloc: Global, name: &Option<Dn>, out: &mut Vec<u8>) -> Result<(), NoMemory>
    ensures ok { OnOk result (out.new.items ≡ out.old.items ++ name_text name.now) }
{
    match name {
        Some(name) => put_printed(alloc, name, out),
        None => Ok(()),
    }
}

// Writes a line.
fn put_line(alloc: Global, line: &Line, out: &mut Vec<u8>) -> Result<(), NoMemory>
    ensures ok { OnOk result (out.new.items ≡ out.old.items ++ line_text (line_of line.now)) }
{
    out.extend_from_slice(&line.text)?;
    put_name(alloc, &line.name, out)?;
    out.extend_from_slice(b"\n")
}

/// Writes lines.
pub(crate) fn put_lines(alloc: Global, lines: &[Line], out: &mut Vec<u8>) -> Result<(), NoMemory>
    ensures ok { OnOk result (out.new.items ≡ out.old.items ++ flat_map line_text (map line_of lines.now)) }
{
    for line in lines {
        put_line(alloc, line, out)?;
    }
    Ok(())
}
