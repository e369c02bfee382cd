//! The program run in memory.

use acl_program::{Outside, Status, run};
use std::alloc::{AllocError, Global};
use wire_io::{MemShelf, MemSink, ScriptLink};

/// How a run ended, what it put, and the link that it left.
#[derive(Drop)]
pub struct Ran {
    pub status: Status,
    pub put: String,
    pub link: ScriptLink,
}

impl Ran {
    /// What the run put, and how it ended.
    pub fn end(&self) -> (&str, Status) {
        (self.put.as_str(), self.status)
    }
}

/// What a run begins with: the words of a line with one space between two, the files `d` and `s`, and the calls of the shelf
/// and of the sink that fail.
#[derive(Clone, Copy)]
pub struct Start<'a> {
    pub line: &'a str,
    pub data: &'a str,
    pub script: &'a str,
    pub shelf: &'a [u64],
    pub sink: &'a [u64],
}

/// The words of a line; none of an empty line.
fn words_of(alloc: Global, line: &str) -> Result<Vec<String>, AllocError> {
    let mut words = Vec::new(alloc);
    if line.is_empty() {
        return Ok(words);
    }
    for word in line.split(' ') {
        words.push(String::from_str(alloc, word)?)?;
    }
    Ok(words)
}

fn file(alloc: Global, name: &str, text: &str) -> Result<(String, Vec<u8>), AllocError> {
    Ok((
        String::from_str(alloc, name)?,
        text.as_bytes().to_vec(alloc)?,
    ))
}

/// A shelf with the files, and nothing else.
fn shelf_of(alloc: Global, start: &Start<'_>) -> Result<MemShelf, AllocError> {
    let mut files = Vec::new(alloc);
    files.push(file(alloc, "d", start.data)?)?;
    files.push(file(alloc, "s", start.script)?)?;
    Ok(MemShelf::new(files, start.shelf.to_vec(alloc)?))
}

/// A link of the events of a script.
pub fn link_of(alloc: Global, script: &str) -> Result<ScriptLink, AllocError> {
    match ScriptLink::read(alloc, script.as_bytes()) {
        Ok(link) => Ok(link),
        Err(_) => Err(AllocError),
    }
}

/// Runs the program with this link.
pub fn run_with(alloc: Global, start: &Start<'_>, link: ScriptLink) -> Result<Ran, AllocError> {
    let outside = Outside {
        shelf: shelf_of(alloc, start)?,
        out: MemSink::new(alloc, start.sink.to_vec(alloc)?),
        link,
    };
    run_in(alloc, start.line, outside)
}

// Runs the program by the words of the line.
fn run_in(
    alloc: Global,
    line: &str,
    mut outside: Outside<MemShelf, MemSink, ScriptLink>,
) -> Result<Ran, AllocError> {
    let words = words_of(alloc, line)?;
    let status = run(alloc, words.as_slice(), &mut outside);
    let Outside {
        shelf: _,
        out,
        link,
    } = outside;
    let put = String::from_utf8_lossy(alloc, out.bytes())?;
    Ok(Ran { status, put, link })
}

/// Runs the program with this link over a shelf with a data file and a file of changes, `c`.
pub fn run_beside(
    alloc: Global,
    line: &str,
    data: &str,
    changes: &str,
    link: ScriptLink,
) -> Result<Ran, AllocError> {
    let mut files = Vec::new(alloc);
    files.push(file(alloc, "d", data)?)?;
    files.push(file(alloc, "c", changes)?)?;
    let outside = Outside {
        shelf: MemShelf::new(files, Vec::new(alloc)),
        out: MemSink::new(alloc, Vec::new(alloc)),
        link,
    };
    run_in(alloc, line, outside)
}

/// Serves a data file by the words of the line over this link.
pub fn serve(alloc: Global, line: &str, data: &str, link: ScriptLink) -> Result<Ran, AllocError> {
    let start = Start {
        line,
        data,
        script: "",
        shelf: &[],
        sink: &[],
    };
    run_with(alloc, &start, link)
}
