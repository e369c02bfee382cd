//! What is printed of a file that isn't read.

ghost use Rattle.std.specs.Prelude.{◌≡◌, IfOk, string_bytes};
ghost use Rattle.command_files.specs.Troubles.{bad_changes_text, bad_data_text, bad_line_text, cause_text, changes_cause_text, file_word, line_cause_text, record_cause_text, trouble_text};
ghost use Rattle.data_file.specs.Files.{cause_of};
ghost use Rattle.wire_io.specs.Putting.{PutCause, PutsAll};

use crate::changing::ChangesCause;
use crate::loading::{SecondFile, Trouble};
use data_file::DataCause;
use data_file::ldif_load::LoadCause;
use data_file::ldif_records::LineCause;
use std::alloc::{AllocError, Global};
use wire_io::{PutFault, Sink, write_all};

/// Puts the line that says why a file wasn't read: `data fault`, `bad data line L: ` or `bad changes line L: ` with the cause,
/// or `bad script line L`, where requests and certificates have a word of their own; nothing for want of memory. After a refusal, `Failed` where the
/// sink's count of faults rose or want of memory, a front of the line was put.
pub fn put_trouble<K: Sink>(alloc: Global, trouble: Trouble, out: &mut K) -> Result<(), PutFault>
    ensures tells { PutsAll (K.put out.old) (trouble_text trouble) result (K.put out.new) }
    ensures cause { PutCause (K.faults out.old) (K.faults out.new) result }
{
    match trouble {
        Trouble::NoFile => write_all(out, b"data fault\n"),
        Trouble::BadData(line, cause) => put_bad_data(alloc, line, cause, out),
        Trouble::BadLine(file, line) => put_bad_line(alloc, file, line, out),
        Trouble::BadChanges(line, cause) => put_bad_changes(alloc, line, cause, out),
        Trouble::NoMemory => Ok(()),
    }
}

/// Puts the number of a data file's bad line, and its cause.
fn put_bad_data<K: Sink>(
    alloc: Global,
    line: u64,
    cause: DataCause,
    out: &mut K,
) -> Result<(), PutFault>
    ensures tells { PutsAll (K.put out.old) (bad_data_text line (cause_of cause)) result (K.put out.new) }
    ensures cause { PutCause (K.faults out.old) (K.faults out.new) result }
{
    let Ok(text) = bad_data_text(alloc, line, cause) else {
        return Err(PutFault::NoMemory);
    };
    write_all(out, text.as_bytes())
}

/// The line that names a data file's bad line, and its cause.
pub fn bad_data_text(alloc: Global, line: u64, cause: DataCause) -> Result<String, AllocError>
    ensures { IfOk result (λ text. string_bytes text ≡ bad_data_text line (cause_of cause)) }
{
    let cause = cause_text(alloc, cause)?;
    format!(in alloc; "bad data line {line}: {cause}\n")
}

/// What is wrong with a data file, in words.
fn cause_text(alloc: Global, cause: DataCause) -> Result<String, AllocError>
    ensures { IfOk result (λ text. string_bytes text ≡ cause_text (cause_of cause)) }
{
    match cause {
        DataCause::Line(cause) => String::from_str(alloc, line_cause_text(cause)),
        DataCause::Record(cause) => record_cause_text(alloc, cause),
    }
}

fn line_cause_text(cause: LineCause) -> &'static str
    ensures { result.now ≡ line_cause_text cause }
{
    match cause {
        LineCause::Syntax => "syntax",
        LineCause::Changetype => "changetype",
        LineCause::Base64 => "base64",
    }
}

fn record_cause_text(alloc: Global, cause: LoadCause) -> Result<String, AllocError>
    ensures { IfOk result (λ text. string_bytes text ≡ record_cause_text cause) }
{
    match cause {
        LoadCause::Name => String::from_str(alloc, "name"),
        LoadCause::Kind => String::from_str(alloc, "type"),
        LoadCause::Value => String::from_str(alloc, "value"),
        LoadCause::Twice => String::from_str(alloc, "twice"),
        LoadCause::Order => String::from_str(alloc, "order"),
        LoadCause::Rule(rule) => format!(in alloc; "rule {}", rule.number()),
        LoadCause::Limit => String::from_str(alloc, "limit"),
    }
}

/// Puts the number of the line at which a file of changes isn't accepted, and the cause.
fn put_bad_changes<K: Sink>(
    alloc: Global,
    line: u64,
    cause: ChangesCause,
    out: &mut K,
) -> Result<(), PutFault>
    ensures tells { PutsAll (K.put out.old) (bad_changes_text line cause) result (K.put out.new) }
    ensures cause { PutCause (K.faults out.old) (K.faults out.new) result }
{
    let Ok(text) = bad_changes(alloc, line, cause) else {
        return Err(PutFault::NoMemory);
    };
    write_all(out, text.as_bytes())
}

fn bad_changes(alloc: Global, line: u64, cause: ChangesCause) -> Result<String, AllocError>
    ensures { IfOk result (λ text. string_bytes text ≡ bad_changes_text line cause) }
{
    let cause = changes_cause_text(alloc, cause)?;
    format!(in alloc; "bad changes line {line}: {cause}\n")
}

/// What is wrong with a file of changes, in words.
fn changes_cause_text(alloc: Global, cause: ChangesCause) -> Result<String, AllocError>
    ensures { IfOk result (λ text. string_bytes text ≡ changes_cause_text cause) }
{
    match cause {
        ChangesCause::Line(cause) => String::from_str(alloc, line_cause_text(cause)),
        ChangesCause::Digest => String::from_str(alloc, "digest"),
        ChangesCause::Code(code) => format!(in alloc; "code {}", code.number()),
        ChangesCause::Limit => String::from_str(alloc, "limit"),
    }
}

/// Puts the number of the bad line of a script, of requests or of a certificate.
fn put_bad_line<K: Sink>(
    alloc: Global,
    file: SecondFile,
    line: u64,
    out: &mut K,
) -> Result<(), PutFault>
    ensures tells { PutsAll (K.put out.old) (bad_line_text file line) result (K.put out.new) }
    ensures cause { PutCause (K.faults out.old) (K.faults out.new) result }
{
    let Ok(text) = bad_line(alloc, file, line) else {
        return Err(PutFault::NoMemory);
    };
    write_all(out, text.as_bytes())
}

fn bad_line(alloc: Global, file: SecondFile, line: u64) -> Result<String, AllocError>
    ensures { IfOk result (λ text. string_bytes text ≡ bad_line_text file line) }
{
    let word = file_word(file);
    format!(in alloc; "bad {word} line {line}\n")
}

/// What a line of the file is of, in words.
fn file_word(file: SecondFile) -> &'static str
    ensures { result.now ≡ file_word file }
{
    match file {
        SecondFile::Script => "script",
        SecondFile::Requests => "request",
        SecondFile::Certificate => "certificate",
    }
}
