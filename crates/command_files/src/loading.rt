//! Reading a data file, and a script, requests, a certificate or changes of its entries, from a shelf.

ghost use Rattle.std.specs.Prelude.{◌≡◌, ◌≤◌, Some, None, length, option_copied};
ghost use Rattle.change_replay.specs.aci_item.Rules.{IsGoodTree};
ghost use Rattle.dir_tree.specs.tree.Numbered.{entries_of};
ghost use Rattle.command_files.specs.loading.Accepting.{most_data, most_second};
ghost use Rattle.command_files.specs.loading.Loading.{LoadsCertificate, LoadsChanges, LoadsContent, LoadsFile, LoadsRequests, LoadsScript, LoadsData, LoadsTree, ReadsChanges, ReadsRequests, ReadsScript, ReadsData, ReadsFile, changes_trouble_of_file, data_trouble_of_file, trouble_of_asks, trouble_of_changes, trouble_of_data, trouble_of_file, trouble_of_script};

use crate::changing::{ChangesCause, ChangesFault, Loaded, change_tree};
use client_core::{AskFault, Asked, read_asks};
use data_file::ldif_load::LoadCause;
use data_file::{DataCause, DataFault, load};
use dir_tree::Tree;
use std::alloc::Global;
use wire_io::script_text::ScriptFault;
use wire_io::{ReadFault, ScriptLink, Shelf, read_all};

/// The most octets that a data file may have.
const MOST_DATA: u64 = 67_108_864;

/// The most octets that a file of changes may have.
const MOST_CHANGES: u64 = 1_073_741_824;

/// The most octets that the file that is read after it may have.
const MOST_SECOND: u64 = 67_108_864;

/// The file that a command reads after its data file.
#[derive(Clone, Copy, Debug, PartialEq)]
pub enum SecondFile {
    /// A script, whose events are replayed.
    Script,
    /// Requests as text, which are asked.
    Requests,
    /// The certificate of a decision, which is verified.
    Certificate,
}

/// Why a file wasn't read.
#[derive(Clone, Copy, Debug)]
pub enum Trouble {
    /// The shelf has no such file, or could not read it.
    NoFile,
    /// The data file's first bad line and its cause, or the line where it becomes too long.
    BadData(u64, DataCause),
    /// The first bad line of the file that is read after it, or the line where that becomes too long.
    BadLine(SecondFile, u64),
    /// The first line at which a file of changes isn't accepted and its cause, or the line where it becomes too long.
    BadChanges(u64, ChangesCause),
    /// There was no memory.
    NoMemory,
}

/// A data file that was loaded.
#[derive(Drop)]
pub struct DataFile {
    pub content: Vec<u8>,
    pub tree: Tree,
}

/// The tree of the data file.
pub fn load_data<H: Shelf>(alloc: Global, shelf: &mut H, name: &str) -> Result<Tree, Trouble>
    ensures exact { LoadsData (H.files shelf.old) name.now (H.faults shelf.old) (H.faults shelf.new) result }
    ensures kept { H.files shelf.new ≡ H.files shelf.old }
{
    match read_all(alloc, shelf, name, MOST_DATA) {
        Ok(text) => read_data(alloc, text.as_slice()),
        Err(fault) => Err(unread_data(fault)),
    }
}

/// The tree of the data file's text.
fn read_data(alloc: Global, text: &[u8]) -> Result<Tree, Trouble>
    requires { length text.now ≤ most_data }
    ensures exact { ReadsData text.now result }
{
    match load(alloc, text) {
        Ok(tree) => Ok(tree),
        Err(fault) => Err(misread_data(fault)),
    }
}

fn unread_data(fault: ReadFault) -> Trouble
    ensures exact { result ≡ data_trouble_of_file fault }
{
    match fault {
        ReadFault::Absent => Trouble::NoFile,
        ReadFault::Failed => Trouble::NoFile,
        ReadFault::TooLong { line } => Trouble::BadData(line, DataCause::Record(LoadCause::Limit)),
        ReadFault::NoMemory => Trouble::NoMemory,
    }
}

fn misread_data(fault: DataFault) -> Trouble
    ensures exact { result ≡ trouble_of_data fault }
{
    match fault {
        DataFault::Bad { line, cause } => Trouble::BadData(line, cause),
        DataFault::NoMemory => Trouble::NoMemory,
    }
}

/// The tree of the data file, with the changes of the second file applied as far as that is whole, where one is named. The
/// data file's own faults come first; `NoFile` comes for either.
pub fn load_tree<H: Shelf>(
    alloc: Global,
    shelf: &mut H,
    name: &str,
    changes: Option<&str>,
) -> Result<Loaded, Trouble>
    ensures exact { LoadsTree (H.files shelf.old) name.now (option_copied changes.entry) (H.faults shelf.old) (H.faults shelf.new) result }
    ensures kept { H.files shelf.new ≡ H.files shelf.old }
{
    match changes {
        Some(changes) => load_changed(alloc, shelf, name, changes),
        None => load_unchanged(alloc, shelf, name),
    }
}

/// The tree of the data file alone.
fn load_unchanged<H: Shelf>(alloc: Global, shelf: &mut H, name: &str) -> Result<Loaded, Trouble>
    ensures exact { LoadsTree (H.files shelf.old) name.now None (H.faults shelf.old) (H.faults shelf.new) result }
    ensures kept { H.files shelf.new ≡ H.files shelf.old }
{
    match load_data(alloc, shelf, name) {
        Ok(tree) => Ok(Loaded {
            tree,
            applied: None,
        }),
        Err(trouble) => Err(trouble),
    }
}

/// The tree of the data file, with the changes applied.
fn load_changed<H: Shelf>(
    alloc: Global,
    shelf: &mut H,
    name: &str,
    changes: &str,
) -> Result<Loaded, Trouble>
    ensures exact { LoadsTree (H.files shelf.old) name.now (Some changes.now) (H.faults shelf.old) (H.faults shelf.new) result }
    ensures kept { H.files shelf.new ≡ H.files shelf.old }
{
    match load_file(alloc, shelf, name) {
        Ok(DataFile { content, tree }) => {
            load_changes(alloc, shelf, tree, content.as_slice(), changes)
        },
        Err(trouble) => Err(trouble),
    }
}

/// The tree of the data file, with its content.
pub fn load_file<H: Shelf>(alloc: Global, shelf: &mut H, name: &str) -> Result<DataFile, Trouble>
    ensures exact { LoadsFile (H.files shelf.old) name.now (H.faults shelf.old) (H.faults shelf.new) result }
    ensures kept { H.files shelf.new ≡ H.files shelf.old }
{
    match read_all(alloc, shelf, name, MOST_DATA) {
        Ok(content) => read_file(alloc, content),
        Err(fault) => Err(unread_data(fault)),
    }
}

/// The same of the data file's text.
fn read_file(alloc: Global, content: Vec<u8>) -> Result<DataFile, Trouble>
    requires { length content.items ≤ most_data }
    ensures exact { ReadsFile content.items result }
{
    match read_data(alloc, content.as_slice()) {
        Ok(tree) => Ok(DataFile { content, tree }),
        Err(trouble) => Err(trouble),
    }
}

/// The octets of the data file. Whether they are accepted is not looked at: `BadData` tells only where it becomes too long.
pub fn load_content<H: Shelf>(alloc: Global, shelf: &mut H, name: &str) -> Result<Vec<u8>, Trouble>
    ensures exact { LoadsContent (H.files shelf.old) name.now (H.faults shelf.old) (H.faults shelf.new) result }
    ensures kept { H.files shelf.new ≡ H.files shelf.old }
{
    match read_all(alloc, shelf, name, MOST_DATA) {
        Ok(content) => Ok(content),
        Err(fault) => Err(unread_data(fault)),
    }
}

/// The tree of the data file of this content, with the changes of the file of the name applied, up to a torn end. `BadChanges`
/// tells the first line at which that isn't accepted, and `NoFile` that it isn't there or that the shelf could not read it.
pub fn load_changes<H: Shelf>(
    alloc: Global,
    shelf: &mut H,
    tree: Tree,
    content: &[u8],
    name: &str,
) -> Result<Loaded, Trouble>
    requires good { IsGoodTree (entries_of tree) }
    ensures exact { LoadsChanges (entries_of tree) content.now (H.files shelf.old) name.now (H.faults shelf.old) (H.faults shelf.new) result }
    ensures kept { H.files shelf.new ≡ H.files shelf.old }
{
    match read_all(alloc, shelf, name, MOST_CHANGES) {
        Ok(text) => read_changes(alloc, tree, content, text.as_slice()),
        Err(fault) => Err(unread_changes(fault)),
    }
}

/// The same with the changes of the text.
fn read_changes(alloc: Global, tree: Tree, content: &[u8], text: &[u8]) -> Result<Loaded, Trouble>
    requires good { IsGoodTree (entries_of tree) }
    ensures exact { ReadsChanges (entries_of tree) content.now text.now result }
{
    match change_tree(alloc, tree, content, text) {
        Ok(loaded) => Ok(loaded),
        Err(fault) => Err(misread_changes(fault)),
    }
}

fn unread_changes(fault: ReadFault) -> Trouble
    ensures exact { result ≡ changes_trouble_of_file fault }
{
    match fault {
        ReadFault::Absent => Trouble::NoFile,
        ReadFault::Failed => Trouble::NoFile,
        ReadFault::TooLong { line } => Trouble::BadChanges(line, ChangesCause::Limit),
        ReadFault::NoMemory => Trouble::NoMemory,
    }
}

fn misread_changes(fault: ChangesFault) -> Trouble
    ensures exact { result ≡ trouble_of_changes fault }
{
    match fault {
        ChangesFault::Bad { line, cause } => Trouble::BadChanges(line, cause),
        ChangesFault::NoMemory => Trouble::NoMemory,
    }
}

/// A link that gives the events of the script file.
pub fn load_script<H: Shelf>(
    alloc: Global,
    shelf: &mut H,
    name: &str,
) -> Result<ScriptLink, Trouble>
    ensures exact { LoadsScript (H.files shelf.old) name.now (H.faults shelf.old) (H.faults shelf.new) result }
    ensures kept { H.files shelf.new ≡ H.files shelf.old }
{
    match read_all(alloc, shelf, name, MOST_SECOND) {
        Ok(text) => read_script(alloc, text.as_slice()),
        Err(fault) => Err(unread(SecondFile::Script, fault)),
    }
}

/// A link that gives the events of the script.
fn read_script(alloc: Global, text: &[u8]) -> Result<ScriptLink, Trouble>
    requires { length text.now ≤ most_second }
    ensures exact { ReadsScript text.now result }
{
    match ScriptLink::read(alloc, text) {
        Ok(link) => Ok(link),
        Err(fault) => Err(misread(fault)),
    }
}

/// The requests of the file.
pub fn load_asks<H: Shelf>(alloc: Global, shelf: &mut H, name: &str) -> Result<Vec<Asked>, Trouble>
    ensures exact { LoadsRequests (H.files shelf.old) name.now (H.faults shelf.old) (H.faults shelf.new) result }
    ensures kept { H.files shelf.new ≡ H.files shelf.old }
{
    match read_all(alloc, shelf, name, MOST_SECOND) {
        Ok(text) => read_requests(alloc, text.as_slice()),
        Err(fault) => Err(unread(SecondFile::Requests, fault)),
    }
}

/// The requests of the text.
fn read_requests(alloc: Global, text: &[u8]) -> Result<Vec<Asked>, Trouble>
    requires { length text.now ≤ most_second }
    ensures exact { ReadsRequests text.now result }
{
    match read_asks(alloc, text) {
        Ok(asks) => Ok(asks),
        Err(fault) => Err(misread_asks(fault)),
    }
}

/// The octets of the certificate's file. Whether they have its form is not looked at.
pub fn load_certificate<H: Shelf>(
    alloc: Global,
    shelf: &mut H,
    name: &str,
) -> Result<Vec<u8>, Trouble>
    ensures exact { LoadsCertificate (H.files shelf.old) name.now (H.faults shelf.old) (H.faults shelf.new) result }
    ensures kept { H.files shelf.new ≡ H.files shelf.old }
{
    match read_all(alloc, shelf, name, MOST_SECOND) {
        Ok(text) => Ok(text),
        Err(fault) => Err(unread(SecondFile::Certificate, fault)),
    }
}

fn unread(kind: SecondFile, fault: ReadFault) -> Trouble
    ensures exact { result ≡ trouble_of_file kind fault }
{
    match fault {
        ReadFault::Absent => Trouble::NoFile,
        ReadFault::Failed => Trouble::NoFile,
        ReadFault::TooLong { line } => Trouble::BadLine(kind, line),
        ReadFault::NoMemory => Trouble::NoMemory,
    }
}

fn misread(fault: ScriptFault) -> Trouble
    ensures exact { result ≡ trouble_of_script fault }
{
    match fault {
        ScriptFault::Bad { line } => Trouble::BadLine(SecondFile::Script, line),
        ScriptFault::NoMemory => Trouble::NoMemory,
    }
}

fn misread_asks(fault: AskFault) -> Trouble
    ensures exact { result ≡ trouble_of_asks fault }
{
    match fault {
        AskFault::Bad { line } => Trouble::BadLine(SecondFile::Requests, line),
        AskFault::NoMemory => Trouble::NoMemory,
    }
}
