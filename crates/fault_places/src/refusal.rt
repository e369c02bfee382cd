//! What is said of a data file that is refused.

ghost use Rattle.std.specs.Prelude.{◌≡◌, ◌++◌, [], IfOk, OnOk, string_bytes, if◌then◌else◌};
ghost use Rattle.dir_tree.specs.tree.Numbered.{entries_of};
ghost use Rattle.ldif_records.specs.lines.Places.{IsPlace, records_from, file_start};
ghost use Rattle.ldif_load.specs.load.Loading.{entry_of_record};
ghost use Rattle.ldif_load.specs.load.Loading as loading;
ghost use Rattle.fault_places.specs.Refusals.{record_said, refused_after, refused_records, refusal_text};
ghost use Rattle.fault_places.specs.Meeting.{IsMet, IsRefused};

use crate::entries::put_entry_fault;
use crate::lines::put_bad_line;
use crate::making::entry_of_record;
use crate::saying::NoMemory;
use crate::values::put_record_line_fault;
use dir_tree::Tree;
use ldif_load::{LoadCause, LoadFault, load_record};
use ldif_records::{BadLine, LineCause, Position, Record, next_record};
use std::alloc::{AllocError, Global};

// How the next record of a file is met.
enum Met {
    // It is loaded, and the next one begins there.
    Loaded(Position),
    // It is refused, at the line and for the cause.
    Refused(u64, LoadCause),
    // One of its lines is of no form that may stand there.
    Misread(u64, LineCause),
    // There is none.
    Ended,
}

// Loads the next record, where it is good.
fn meet(alloc: Global, text: &[u8], at: Position, tree: &mut Tree) -> Result<Met, NoMemory>
    requires { IsPlace text.now at }
    ensures ok { IfOk result (λ met. IsMet text.now at tree.old tree.new met) }
{
    match next_record(alloc, text, at) {
        Ok(Some((given, to))) => match load_record(alloc, tree, given) {
            Ok(()) => Ok(Met::Loaded(to)),
            Err(LoadFault::Bad { line, cause }) => Ok(Met::Refused(line, cause)),
            Err(LoadFault::NoMemory) => Err(AllocError),
        },
        Ok(None) => Ok(Met::Ended),
        Err(BadLine::Bad { line, cause }) => Ok(Met::Misread(line, cause)),
        Err(BadLine::NoMemory) => Err(AllocError),
    }
}

// Writes where in a record that is refused the fault is.
fn put_record(
    alloc: Global,
    tree: &Tree,
    given: &Record,
    line: u64,
    cause: LoadCause,
    out: &mut String,
) -> Result<(), NoMemory>
    ensures ok { OnOk result (string_bytes out.new ≡ string_bytes out.old
        ++ record_said (entries_of tree.now) given.now (loading.Bad line cause)) }
{
    match entry_of_record(alloc, given)? {
        Some(entry) => put_entry_fault(alloc, tree, given, &entry, cause, out),
        None => put_record_line_fault(alloc, given, line, cause, out),
    }
}

// Writes the same of the record at the place.
fn put_record_at(
    alloc: Global,
    text: &[u8],
    at: Position,
    tree: &Tree,
    line: u64,
    cause: LoadCause,
    out: &mut String,
) -> Result<(), NoMemory>
    requires place { IsPlace text.now at }
    requires refused { IsRefused text.now at (entries_of tree.now) line cause }
    ensures ok { OnOk result (string_bytes out.new
        ≡ string_bytes out.old ++ refused_after (entries_of tree.now) (records_from text.now at)) }
{
    match next_record(alloc, text, at) {
        Ok(Some((given, _))) => put_record(alloc, tree, &given, line, cause, out),
        Ok(None) => Ok(()),
        Err(BadLine::Bad { line, cause }) => put_bad_line(line, cause, out),
        Err(BadLine::NoMemory) => Err(AllocError),
    }
}

// Writes what is said of the first record that is refused, if there is one.
fn put_first(alloc: Global, text: &[u8], out: &mut String) -> Result<(), NoMemory>
    ensures ok { OnOk result (string_bytes out.new
        ≡ string_bytes out.old ++ refused_after [] (records_from text.now file_start)) }
{
    let mut tree = Tree::new(alloc);
    let mut at = Position { offset: 0, line: 1 };
    'records: loop {
        match meet(alloc, text, at, &mut tree)? {
            Met::Loaded(to) => at = to,
            Met::Refused(line, cause) => {
                return put_record_at(alloc, text, at, &tree, line, cause, out);
            }
            Met::Misread(line, cause) => return put_bad_line(line, cause, out),
            Met::Ended => return Ok(()),
        }
    }
}

// Whether the file has a record, or a line that begins none.
fn has_record(alloc: Global, text: &[u8]) -> Result<bool, NoMemory>
    ensures ok { IfOk result (λ found. refused_records (records_from text.now file_start)
        ≡ (if found then refused_after [] (records_from text.now file_start) else refused_records [])) }
{
    match next_record(alloc, text, Position { offset: 0, line: 1 }) {
        Ok(Some(_)) => Ok(true),
        Ok(None) => Ok(false),
        Err(BadLine::Bad { .. }) => Ok(true),
        Err(BadLine::NoMemory) => Err(AllocError),
    }
}

/// What is said of a data file that is refused (RFC 2849), line by line: where in its first bad record the fault is. Nothing
/// is said of one that is loaded. The error comes where memory is refused.
#[tactic(auto, unfolding(crate::specs::Refusals::refusal_text))]
pub fn why_refused(alloc: Global, text: &[u8]) -> Result<String, NoMemory>
    ensures ok { IfOk result (λ said. string_bytes said ≡ refusal_text text.now) }
{
    let mut out = String::new(alloc);
    if has_record(alloc, text)? {
        put_first(alloc, text, &mut out)?;
    } else {
        out.push_str("why: no record, which begins with \"dn: name\"\n")?;
    }
    Ok(out)
}
