//! A shelf in memory.

ghost use Rattle.std.specs.Prelude.{◌≡◌, ◌<◌, ◌≤◌, ◌-◌, map, min, string_bytes, Some, length, take, drop, IfOk, IfSome, IfNone, None};
ghost use Rattle.wire_io.specs.Files.{Files, file_of, FetchGives, FetchCause};
ghost use Rattle.wire_io.specs.MemoryForms.{ShelfState, ShelfFetches, files_view};

use crate::copying::copy_front;
use crate::listed::is_listed;
use crate::{FetchFault, Shelf};
use plain_values::raised;
use std::marker::Model;

/// A shelf of given files, which fails at chosen calls.
#[derive(Debug, Drop)]
pub struct MemShelf {
    files: Vec<(String, Vec<u8>)>,
    failing: Vec<u64>,
    calls: u64,
    faults: u64,
}

impl Model for MemShelf {
    ghost use Rattle.wire_io.specs.MemoryForms.{ShelfState, files_view};

    ghost Value = { ShelfState };

    ghost view = { λ shelf. record { files = files_view shelf.files.items; failing = shelf.failing.items; calls = shelf.calls; faults = shelf.faults } };
}

impl MemShelf {
    /// A shelf of the files, each a name and its octets. It counts the calls of `fetch` from 0, and
    /// those in `failing` fail. Of two files of one name the first is the one that is read. Takes no
    /// memory.
    pub fn new(files: Vec<(String, Vec<u8>)>, failing: Vec<u64>) -> MemShelf
        ensures exact { result ≡ record { files = files_view files.items; failing = failing.items; calls = 0; faults = 0 } }
    {
        MemShelf {
            files,
            failing,
            calls: 0,
            faults: 0,
        }
    }
}

impl Shelf for MemShelf {
    ghost use Rattle.std.specs.Prelude.{Some};

    ghost files = { λ shelf. Some shelf.files };

    ghost faults = { λ shelf. shelf.faults };

    /// Gives as many octets as the file and the buffer have, or fails at the chosen calls.
    #[tactic(auto, unfolding(crate::specs::Files::FetchGives, crate::specs::Files::FetchCause, crate::specs::Files::Lacks, crate::specs::Files::ReadsFile, crate::specs::Files::ReadsFrom, crate::specs::MemoryForms::ShelfFetches, crate::specs::MemoryForms::GivesAll))]
    fn fetch(&mut self, name: &str, from: u64, buf: &mut [u8]) -> Result<usize, FetchFault>
        requires { 0 < length buf.old }
        ensures fits { IfOk result (λ count. count ≤ length buf.new) }
        ensures gives { FetchGives (Some self.old.files) name.now from buf.new result }
        ensures cause { FetchCause (Some self.old.files) name.now self.old.faults self.new.faults result }
        ensures kept { self.new.files ≡ self.old.files }
        ensures exact { ShelfFetches self.old name.now from (length buf.old) result self.new }
    {
        let call = self.calls;
        self.calls = raised(call);
        if is_listed(call, &self.failing) {
            self.faults = raised(self.faults);
            return Err(FetchFault::Failed);
        }
        let Some(content) = find(self.files.as_slice(), name) else {
            return Err(FetchFault::Absent);
        };
        Ok(copy_from(content, from, buf))
    }
}

/// The octets of the first file of the name.
#[tactic(auto, unfolding(crate::specs::Files::file_of))]
fn find<'a>(files: &'a [(String, Vec<u8>)], name: &str) -> Option<&'a [u8]>
    ensures found { IfSome result (λ content. file_of name.now (files_view files.now) ≡ Some content.now) }
    ensures empty { IfNone result (file_of name.now (files_view files.now) ≡ None) }
{
    for file in files {
        if name == file.0.as_str() {
            return Some(file.1.as_slice());
        }
    }
    None
}

/// Copies the content from the place on into the buffer, and says how many octets.
fn copy_from(content: &[u8], from: u64, buf: &mut [u8]) -> usize
    ensures fits { result ≤ length buf.new }
    ensures count { result ≡ min (length content.now - from) (length buf.old) }
    ensures exact { take result buf.new ≡ take result (drop from content.now) }
{
    if from >= content.len() as u64 {
        return 0;
    }
    copy_front(content.split_at(from as usize).1, buf)
}
