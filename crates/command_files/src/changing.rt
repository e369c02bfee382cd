//! A file of changes, applied to the tree of a data file.

ghost use Rattle.std.specs.Prelude.{◌≡◌, IfOk, length};
ghost use Rattle.wire_io.specs.plain_values.Answers.{Answers};
ghost use Rattle.dir_tree.specs.tree.Numbered.{entries_of};
ghost use Rattle.change_replay.specs.aci_item.Rules.{IsGoodTree};
ghost use Rattle.change_replay.specs.change_records.Files.{head_text, said_by};
ghost use Rattle.change_replay.specs.Replayed.{replayed};
ghost use Rattle.whole_blocks.specs.Blocks.{whole_part};
ghost use Rattle.command_files.specs.loading.Changing.{changed, changed_by, changed_by_whole, changed_for, changes_of, fault_of, fault_of_line, fault_of_replay, head_of, is_torn_head, left_by, left_of, tied_to};

use change_replay::change_records::{ChangeFile, NoMemory, RecordedChange, put_head, read_file};
use change_replay::laws::a_good_tree_stays_good_when_replayed;
use change_replay::{ReplayFault, apply_changes};
use client_core::ldap_msg::ResultCode;
use data_file::ldif_records::{BadLine, LineCause};
use dir_tree::Tree;
use sha2::{Digest, Sha256};
use std::alloc::Global;
use whole_blocks::whole_length;

/// Why a file of changes isn't accepted.
#[derive(Clone, Copy, Debug)]
pub enum ChangesCause {
    /// A line is bad: it is of no form that may stand there, or its record lacks a line; `changetype` is the type of an
    /// attribute; or a value isn't padded base64.
    Line(LineCause),
    /// The head has the digest of another data file.
    Digest,
    /// The change can't be applied: the result code that refuses it (RFC 4511 appendix A).
    Code(ResultCode),
    /// The file is too long.
    Limit,
}

/// Why the changes of a file weren't applied.
#[derive(Clone, Copy, Debug)]
pub enum ChangesFault {
    /// The first line at which the file isn't accepted, and why: the bad line, that of the digest, or the first line of the
    /// record of the change that can't be applied.
    Bad { line: u64, cause: ChangesCause },
    /// There was no memory.
    NoMemory,
}

/// What was applied of a file of changes.
#[derive(Clone, Copy, Debug, PartialEq)]
pub struct Applied {
    /// How many changes were applied.
    pub count: usize,
    /// How many octets stand behind the last whole record, or behind the head where there is none; all, where the head isn't
    /// whole.
    pub torn: usize,
    /// How many octets stand before them.
    pub whole: usize,
}

/// The tree that files leave.
#[derive(Drop)]
pub struct Loaded {
    pub tree: Tree,
    /// What was applied of the file of changes, where there is one.
    pub applied: Option<Applied>,
}

/// The head of a file of changes that belongs to the data file of this content: what such a file begins with. The error comes
/// where memory is refused.
pub fn head_of(alloc: Global, content: &[u8]) -> Result<Vec<u8>, NoMemory>
    ensures exact { IfOk result (λ head. head.items ≡ head_of content.now) }
{
    head_by(alloc, &Sha256::digest(content))
}

fn head_by(alloc: Global, digest: &[u8]) -> Result<Vec<u8>, NoMemory>
    ensures exact { IfOk result (λ head. head.items ≡ head_text digest.now) }
{
    let mut head = Vec::new(alloc);
    put_head(&mut head, digest)?;
    Ok(head)
}

/// Whether the text is a beginning of the head, and not the whole of it.
fn is_torn_head(head: &[u8], text: &[u8]) -> bool
    ensures exact { result ≡ is_torn_head head.now text.now }
{
    text.len() < head.len() && head.starts_with(text)
}

/// Applies the changes of a file's text, up to a torn end, to the tree of the data file of this content.
#[tactic(auto, unfolding(crate::specs::loading::Changing::changed_by))]
pub(crate) fn change_tree(
    alloc: Global,
    tree: Tree,
    content: &[u8],
    text: &[u8],
) -> Result<Loaded, ChangesFault>
    requires good { IsGoodTree (entries_of tree) }
    ensures exact { Answers left_of fault_of result (changed_by (entries_of tree) content.now text.now) }
    ensures good { IfOk result (λ loaded. IsGoodTree (entries_of loaded.tree)) }
{
    change_for(alloc, tree, &Sha256::digest(content), text)
}

/// The same of the data file of this digest.
fn change_for(alloc: Global, tree: Tree, digest: &[u8], text: &[u8]) -> Result<Loaded, ChangesFault>
    requires good { IsGoodTree (entries_of tree) }
    ensures exact { Answers left_of fault_of result (changed_for (entries_of tree) digest.now text.now) }
    ensures good { IfOk result (λ loaded. IsGoodTree (entries_of loaded.tree)) }
{
    let Ok(head) = head_by(alloc, digest) else {
        return Err(ChangesFault::NoMemory);
    };
    if is_torn_head(head.as_slice(), text) {
        Ok(apply_nothing(tree, text.len()))
    } else {
        change_by_whole(alloc, tree, digest, text)
    }
}

/// The tree as it is, beside so many torn octets.
fn apply_nothing(tree: Tree, torn: usize) -> Loaded
    ensures exact { left_of result ≡ changed (entries_of tree) 0 0 torn }
    ensures kept { result.tree ≡ tree }
{
    Loaded {
        tree,
        applied: Some(Applied {
            count: 0,
            torn,
            whole: 0,
        }),
    }
}

/// The same of a text whose head is whole, if it has one.
fn change_by_whole(
    alloc: Global,
    tree: Tree,
    digest: &[u8],
    text: &[u8],
) -> Result<Loaded, ChangesFault>
    requires good { IsGoodTree (entries_of tree) }
    ensures exact { Answers left_of fault_of result
        (changed_by_whole (entries_of tree) digest.now text.now (whole_part text.now)) }
    ensures good { IfOk result (λ loaded. IsGoodTree (entries_of loaded.tree)) }
{
    let whole = whole_length(text);
    match changes_of(alloc, digest, text.split_at(whole).0) {
        Ok(changes) => apply(alloc, tree, &changes, whole, text.len() - whole),
        Err(fault) => Err(fault),
    }
}

/// The changes that the whole part of a file says, where they are of the data file of this digest.
fn changes_of(
    alloc: Global,
    digest: &[u8],
    whole: &[u8],
) -> Result<Vec<RecordedChange>, ChangesFault>
    ensures exact { Answers (λ changes. changes.items) fault_of result (changes_of digest.now whole.now) }
{
    match read_file(alloc, whole) {
        Ok(file) => tied_to(digest, file),
        Err(bad) => Err(misread(bad)),
    }
}

/// The changes of a file, where its head has the digest.
fn tied_to(digest: &[u8], file: ChangeFile) -> Result<Vec<RecordedChange>, ChangesFault>
    ensures exact { Answers (λ changes. changes.items) fault_of result (tied_to digest.now (said_by file)) }
{
    let ChangeFile {
        digest: head,
        changes,
    } = file;
    if head.as_slice() == digest {
        Ok(changes)
    } else {
        Err(ChangesFault::Bad {
            line: 2,
            cause: ChangesCause::Digest,
        })
    }
}

fn misread(bad: BadLine) -> ChangesFault
    ensures exact { result ≡ fault_of_line bad }
{
    match bad {
        BadLine::Bad { line, cause } => ChangesFault::Bad {
            line,
            cause: ChangesCause::Line(cause),
        },
        BadLine::NoMemory => ChangesFault::NoMemory,
    }
}

/// Applies changes, which stand in so many whole octets before so many torn ones.
fn apply(
    alloc: Global,
    tree: Tree,
    changes: &[RecordedChange],
    whole: usize,
    torn: usize,
) -> Result<Loaded, ChangesFault>
    requires good { IsGoodTree (entries_of tree) }
    ensures exact { Answers left_of fault_of result
        (left_by (length changes.now) whole torn (replayed (entries_of tree) changes.now)) }
    ensures good { IfOk result (λ loaded. IsGoodTree (entries_of loaded.tree)) }
{
    a_good_tree_stays_good_when_replayed();
    let mut tree = tree;
    match apply_changes(alloc, &mut tree, changes) {
        Ok(()) => Ok(Loaded {
            tree,
            applied: Some(Applied {
                count: changes.len(),
                torn,
                whole,
            }),
        }),
        Err(fault) => Err(unapplied(fault)),
    }
}

fn unapplied(fault: ReplayFault) -> ChangesFault
    ensures exact { result ≡ fault_of_replay fault }
{
    match fault {
        ReplayFault::Refused { line, code } => ChangesFault::Bad {
            line,
            cause: ChangesCause::Code(code),
        },
        ReplayFault::NoMemory => ChangesFault::NoMemory,
    }
}
