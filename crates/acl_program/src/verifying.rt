//! The command `verify`: a certificate held against a data file's tree.

ghost use Rattle.std.specs.Prelude.{◌≡◌, ℕ, List, Ok, IfOk, string_bytes};
ghost use Rattle.command_words.specs.command.Command.{Verify};
ghost use Rattle.command_files.specs.dir_tree.tree.Numbered.{entries_of};
ghost use Rattle.command_files.specs.loading.Loading.{LoadsData};
ghost use Rattle.command_files.specs.Outside.{written};
ghost use Rattle.acl_program.specs.Answering.{valid_text};
ghost use Rattle.acl_program.specs.Deciding.{EndsVerified, outcome_of_fault};
ghost use Rattle.acl_program.specs.Outcomes.{Answered, FalseLine, status_of, text_of};
ghost use Rattle.acl_program.specs.program.Outside.{at_count};
ghost use Rattle.acl_program.specs.program.Playing.{Ends, Performs};

use crate::outside::Outside;
use crate::status::Status;
use crate::troubles::print_trouble;
use certify::{CertFault, verify};
use command_files::dir_tree::Tree;
use command_files::wire_io::{Link, Shelf, Sink, write_all};
use command_files::{SecondFile, Trouble, load_certificate, load_data};
use command_words::Verifying;
use std::alloc::{AllocError, Global};

/// Loads the data file, reads the certificate, and prints whether it is that of the tree. The tree alone is asked, and no
/// index of it.
pub(crate) fn tell_validity<H: Shelf, K: Sink, L: Link>(
    alloc: Global,
    asked: &Verifying<'_>,
    outside: &mut Outside<H, K, L>,
) -> Status
    ensures performs { Performs (Verify asked.now.data.now asked.now.certificate.now) outside.old result outside.new }
    ensures kept { outside.new.shelf.files ≡ outside.old.shelf.files }
{
    match load_data(alloc, &mut outside.shelf, asked.data) {
        Ok(tree) => verify_over(alloc, &tree, asked.certificate, outside),
        Err(trouble) => print_trouble(alloc, trouble, &mut outside.out),
    }
}

/// The same over the tree of the data file.
fn verify_over<H: Shelf, K: Sink, L: Link>(
    alloc: Global,
    tree: &Tree,
    certificate: &str,
    outside: &mut Outside<H, K, L>,
) -> Status
    ensures performs { (name : List ℕ) (before : ℕ) →
        LoadsData outside.old.shelf.files name before outside.old.shelf.faults (Ok tree.now) →
        Performs (Verify name certificate.now) (at_count before outside.old) result outside.new }
    ensures kept { outside.new.shelf.files ≡ outside.old.shelf.files }
{
    match load_certificate(alloc, &mut outside.shelf, certificate) {
        Ok(text) => verify_text(alloc, tree, text.as_slice(), &mut outside.out),
        Err(trouble) => print_trouble(alloc, trouble, &mut outside.out),
    }
}

/// Prints what is found of the certificate over the tree.
fn verify_text<K: Sink>(alloc: Global, tree: &Tree, text: &[u8], out: &mut K) -> Status
    ensures ends { EndsVerified (entries_of tree.now) text.now (written (K.put out.old) (K.faults out.old)) result
        (written (K.put out.new) (K.faults out.new)) }
{
    match verify(alloc, tree, text) {
        Ok(granted) => print_valid(granted, out),
        Err(fault) => print_fault(alloc, fault, out),
    }
}

/// Prints why the certificate isn't that of the tree.
fn print_fault<K: Sink>(alloc: Global, fault: CertFault, out: &mut K) -> Status
    ensures ends { Ends (outcome_of_fault fault) (written (K.put out.old) (K.faults out.old)) result
        (written (K.put out.new) (K.faults out.new)) }
{
    match fault {
        CertFault::Form { line } => {
            print_trouble(alloc, Trouble::BadLine(SecondFile::Certificate, line), out)
        }
        CertFault::False { line } => print_false_line(alloc, line, out),
        CertFault::NoMemory => Status::NoMemory,
    }
}

/// Prints that the certificate is that of the tree, and what it decides.
#[tactic(auto, unfolding(crate::specs::Outcomes::text_of, crate::specs::Outcomes::status_of))]
fn print_valid<K: Sink>(granted: bool, out: &mut K) -> Status
    ensures ends { Ends (Answered (valid_text granted)) (written (K.put out.old) (K.faults out.old)) result
        (written (K.put out.new) (K.faults out.new)) }
{
    let put = write_all(out, valid_text(granted).as_bytes());
    Status::Done.after(put)
}

fn valid_text(granted: bool) -> &'static str
    ensures { result.now ≡ valid_text granted }
{
    if granted {
        "valid granted\n"
    } else {
        "valid refused\n"
    }
}

/// Prints the number of the certificate's first line that isn't that of the tree.
#[tactic(auto, unfolding(crate::specs::Outcomes::text_of, crate::specs::Outcomes::status_of))]
fn print_false_line<K: Sink>(alloc: Global, line: u64, out: &mut K) -> Status
    ensures ends { Ends (FalseLine line) (written (K.put out.old) (K.faults out.old)) result
        (written (K.put out.new) (K.faults out.new)) }
{
    let Ok(text) = false_line(alloc, line) else {
        return Status::NoMemory;
    };
    let put = write_all(out, text.as_bytes());
    Status::NotProved.after(put)
}

#[tactic(auto, unfolding(crate::specs::Outcomes::text_of))]
fn false_line(alloc: Global, line: u64) -> Result<String, AllocError>
    ensures { IfOk result (λ text. string_bytes text ≡ text_of (FalseLine line)) }
{
    format!(in alloc; "false line {line}\n")
}
