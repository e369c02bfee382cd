//! The commands `explain` and `prove`: one access control decision over a data file's tree, filter by filter or as a
//! certificate.

ghost use Rattle.std.specs.Prelude.{◌≡◌, ℕ, List, Some, IfOk};
ghost use Rattle.command_files.specs.dir_tree.tree.Numbered.{entries_of};
ghost use Rattle.certify.specs.explanation.Questions.{question_view};
ghost use Rattle.certify.specs.explanation.Reading.{question_of};
ghost use Rattle.command_files.specs.Outside.{written};
ghost use Rattle.acl_program.specs.Answering.{account_text};
ghost use Rattle.acl_program.specs.Deciding.{decision_asked};
ghost use Rattle.acl_program.specs.Outcomes.{Answered};
ghost use Rattle.acl_program.specs.program.Playing.{Ends, Performs};

use crate::outside::Outside;
use crate::status::Status;
use crate::troubles::{print_trouble, print_usage};
use aci_index::IndexedDir;
use certify::explanation::{AskedDecision, explain_text, read_question};
use certify::prove_text;
use command_files::dir_tree::{NoMemory, Tree};
use command_files::load_data;
use command_files::wire_io::{Link, Shelf, Sink, write_all};
use command_words::Deciding;
use std::alloc::Global;

/// How a decision is told.
#[derive(Clone, Copy, Debug)]
pub(crate) enum Account {
    /// By what each filter leaves.
    Explanation,
    /// As a certificate, which can be verified.
    Certificate,
}

/// Reads the question, loads the data file, and prints the decision. Where the words are no question it prints how to call
/// the program, and reads no file.
pub(crate) fn tell_decision<H: Shelf, K: Sink, L: Link>(
    alloc: Global,
    account: Account,
    asked: &Deciding<'_>,
    outside: &mut Outside<H, K, L>,
) -> Status
    ensures performs { Performs (decision_asked account asked.now.data.now asked.now.who.now
        asked.now.target.now asked.now.item.now asked.now.permission.now) outside.old result outside.new }
    ensures kept { outside.new.shelf.files ≡ outside.old.shelf.files }
{
    match read_question(alloc, asked.who, asked.target, asked.item, asked.permission) {
        Ok(Some(question)) => decide_over(alloc, account, asked.data, &question, outside),
        Ok(None) => print_usage(&mut outside.out),
        Err(_) => Status::NoMemory,
    }
}

/// Loads the data file, and prints the decision over its tree.
fn decide_over<H: Shelf, K: Sink, L: Link>(
    alloc: Global,
    account: Account,
    name: &str,
    question: &AskedDecision,
    outside: &mut Outside<H, K, L>,
) -> Status
    ensures performs { (who target item permission : List ℕ) →
        question_of who target item permission ≡ Some (question_view question.now) →
        Performs (decision_asked account name.now who target item permission) outside.old result outside.new }
    ensures kept { outside.new.shelf.files ≡ outside.old.shelf.files }
{
    match load_data(alloc, &mut outside.shelf, name) {
        Ok(tree) => print_decision(alloc, tree, question, account, &mut outside.out),
        Err(trouble) => print_trouble(alloc, trouble, &mut outside.out),
    }
}

/// Prints the decision over the tree.
#[tactic(auto, unfolding(crate::specs::Outcomes::text_of, crate::specs::Outcomes::status_of))]
fn print_decision<K: Sink>(
    alloc: Global,
    tree: Tree,
    question: &AskedDecision,
    account: Account,
    out: &mut K,
) -> Status
    ensures ends { Ends (Answered (account_text account (entries_of tree) (question_view question.now)))
        (written (K.put out.old) (K.faults out.old)) result (written (K.put out.new) (K.faults out.new)) }
{
    let Ok(text) = decision_text(alloc, tree, question, account) else {
        return Status::NoMemory;
    };
    let put = write_all(out, text.as_slice());
    Status::Done.after(put)
}

/// The text of the decision over the tree.
fn decision_text(
    alloc: Global,
    tree: Tree,
    question: &AskedDecision,
    account: Account,
) -> Result<Vec<u8>, NoMemory>
    ensures exact { IfOk result (λ text. text.items ≡ account_text account (entries_of tree) (question_view question.now)) }
{
    let dir = IndexedDir::new(alloc, tree)?;
    account_text(alloc, &dir, question, account)
}

/// The same over the directory.
fn account_text(
    alloc: Global,
    dir: &IndexedDir,
    question: &AskedDecision,
    account: Account,
) -> Result<Vec<u8>, NoMemory>
    ensures exact { IfOk result (λ text. text.items ≡ account_text account (entries_of dir.now) (question_view question.now)) }
{
    match account {
        Account::Explanation => Ok(explain_text(alloc, dir, question)?.into_bytes()),
        Account::Certificate => prove_text(alloc, dir, question),
    }
}
