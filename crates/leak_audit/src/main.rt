//! The program: it takes its words, the system's files and the standard output, and ends with the number of its status.
//! Both the words and the texts are those of `audit_program`.
#![tactic(auto)]

use audit_program::{AuditStatus, Outside, audit};
use std::alloc::AllocError;
use std::env;
use std::io::ErrorKind;
use std::process::ExitCode;
use wire_io::{FileShelf, StdSink};

fn main(rt: HostRuntime) -> ExitCode {
    let status = start(&rt).unwrap_or(AuditStatus::NoMemory);
    ExitCode::from(status.number())
}

/// Runs the program over the system's files and the standard output.
fn start(rt: &HostRuntime) -> Result<AuditStatus, AllocError> {
    let alloc = rt.alloc();
    let words = words_of(rt)?;
    let mut outside = Outside {
        shelf: FileShelf::new(rt.clone()?),
        out: StdSink::new(rt.clone()?),
    };
    Ok(audit(alloc, words.as_slice(), &mut outside))
}

/// The words after the program's name; none where one of them is no text.
fn words_of(rt: &HostRuntime) -> Result<Vec<String>, AllocError> {
    match env::args(rt) {
        Ok(words) => words.skip(1).collect(rt.alloc()),
        Err(error) if error.kind() == ErrorKind::OutOfMemory => Err(AllocError),
        Err(_) => Ok(Vec::new(rt.alloc())),
    }
}
