//! The lines of a replay, and the tree after them.

ghost use Rattle.std.specs.Prelude.{◌≡◌, ◌++◌, IfOk, string_bytes, decimal, codes};
ghost use Rattle.std.specs.Option.{option_map};
ghost use Rattle.acl_program.specs.Lines.{shown, ending, line_of};
ghost use Rattle.acl_program.specs.program.Playing.{journal_lines, journal_text, dumped_text, IsDumpable};
ghost use Rattle.command_files.specs.wire_io.Putting.{PutsAll, PutCause};
ghost use Rattle.command_files.specs.wire_io.Journal.{taken_of, is_hung_up};

use command_files::data_file::put_tree;
use command_files::dir_tree::Tree;
use command_files::wire_io::{PutFault, ScriptLink, Sink, write_all};
use std::alloc::{AllocError, Global};

/// Prints the lines of all connections that the link opened, and then the tree, where there is one to print.
pub(crate) fn print_replay<K: Sink>(
    alloc: Global,
    link: &ScriptLink,
    dumped: Option<&Tree>,
    out: &mut K,
) -> Result<(), PutFault>
    requires { IsDumpable (option_map (λ tree. tree.now) dumped) }
    ensures tells { PutsAll (K.put out.old) (journal_text link.now.journal ++ dumped_text (option_map (λ tree. tree.now) dumped.entry)) result (K.put out.new) }
    ensures cause { PutCause (K.faults out.old) (K.faults out.new) result }
{
    match print_lines(alloc, link, out) {
        Ok(()) => print_dumped(alloc, dumped, out),
        Err(fault) => Err(fault),
    }
}

/// Prints the tree, where there is one.
fn print_dumped<K: Sink>(alloc: Global, dumped: Option<&Tree>, out: &mut K) -> Result<(), PutFault>
    requires { IsDumpable (option_map (λ tree. tree.now) dumped) }
    ensures tells { PutsAll (K.put out.old) (dumped_text (option_map (λ tree. tree.now) dumped.entry)) result (K.put out.new) }
    ensures cause { PutCause (K.faults out.old) (K.faults out.new) result }
{
    match dumped {
        Some(tree) => put_tree(alloc, tree, out),
        None => Ok(()),
    }
}

/// Prints the lines of all connections that the link opened.
fn print_lines<K: Sink>(alloc: Global, link: &ScriptLink, out: &mut K) -> Result<(), PutFault>
    ensures tells { PutsAll (K.put out.old) (journal_text link.now.journal) result (K.put out.new) }
    ensures cause { PutCause (K.faults out.old) (K.faults out.new) result }
{
    let Ok(conns) = link.opened() else {
        return Err(PutFault::NoMemory);
    };
    print_each(alloc, link, conns.as_slice(), out)
}

/// Prints the lines of these connections, in their order.
fn print_each<K: Sink>(
    alloc: Global,
    link: &ScriptLink,
    conns: &[u32],
    out: &mut K,
) -> Result<(), PutFault>
    ensures tells { PutsAll (K.put out.old) (journal_lines link.now.journal conns.now) result (K.put out.new) }
    ensures cause { PutCause (K.faults out.old) (K.faults out.new) result }
{
    let mut index = 0;
    while index < conns.len() {
        match print_line(alloc, link, conns[index], out) {
            Ok(()) => index += 1,
            Err(fault) => return Err(fault),
        }
    }
    Ok(())
}

/// Prints the line of a connection: first its number, and then the rest, so that what was sent to it is
/// written out once.
fn print_line<K: Sink>(
    alloc: Global,
    link: &ScriptLink,
    conn: u32,
    out: &mut K,
) -> Result<(), PutFault>
    ensures tells { PutsAll (K.put out.old) (line_of conn (taken_of conn link.now.journal) (is_hung_up conn link.now.journal)) result (K.put out.new) }
    ensures cause { PutCause (K.faults out.old) (K.faults out.new) result }
{
    match print_number(alloc, conn, out) {
        Ok(()) => print_sent(alloc, link.said_of(conn), link.hung_up(conn), out),
        Err(fault) => Err(fault),
    }
}

/// Prints the number of a connection and a space.
fn print_number<K: Sink>(alloc: Global, conn: u32, out: &mut K) -> Result<(), PutFault>
    ensures tells { PutsAll (K.put out.old) (decimal conn ++ codes " ") result (K.put out.new) }
    ensures cause { PutCause (K.faults out.old) (K.faults out.new) result }
{
    let Ok(text) = number(alloc, conn) else {
        return Err(PutFault::NoMemory);
    };
    write_all(out, text.as_bytes())
}

/// Prints what was sent to a connection, and whether it was hung up.
fn print_sent<K: Sink>(
    alloc: Global,
    sent: &[u8],
    hung_up: bool,
    out: &mut K,
) -> Result<(), PutFault>
    ensures tells { PutsAll (K.put out.old) (shown sent.now ++ (ending hung_up ++ codes "\n")) result (K.put out.new) }
    ensures cause { PutCause (K.faults out.old) (K.faults out.new) result }
{
    let Ok(text) = sent_text(alloc, sent, hung_up) else {
        return Err(PutFault::NoMemory);
    };
    write_all(out, text.as_bytes())
}

/// The number of a connection and a space.
fn number(alloc: Global, conn: u32) -> Result<String, AllocError>
    ensures { IfOk result (λ text. string_bytes text ≡ decimal conn ++ codes " ") }
{
    format!(in alloc; "{conn} ")
}

/// The line of a connection after its number, by what was sent to it and whether it was hung up.
fn sent_text(alloc: Global, sent: &[u8], hung_up: bool) -> Result<String, AllocError>
    ensures { IfOk result (λ text. string_bytes text ≡ shown sent.now ++ (ending hung_up ++ codes "\n")) }
{
    let mut text = shown(alloc, sent)?;
    text.push_str(ending(hung_up))?;
    text.push_str("\n")?;
    Ok(text)
}

/// Octets in hexadecimal, or `-` where there are none.
fn shown(alloc: Global, octets: &[u8]) -> Result<String, AllocError>
    ensures { IfOk result (λ text. string_bytes text ≡ shown octets.now) }
{
    if octets.is_empty() {
        return String::from_str(alloc, "-");
    }
    command_files::hex::encode(alloc, octets)
}

fn ending(hung_up: bool) -> &'static str
    ensures { result.now ≡ ending hung_up }
{
    if hung_up { " closed" } else { "" }
}
