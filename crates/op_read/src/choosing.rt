//! Which attributes of an entry a search chooses.

ghost use Rattle.std.specs.Prelude.{◌≡◌, ℕ, [], IfOk};
ghost use Rattle.std.specs.List.{list_any};
ghost use Rattle.dir_tree.specs.schema_tables.Attributes.{is_operational};
ghost use Rattle.page_core.specs.read_model.Choosing.{is_chosen_by, is_chosen};
ghost use Rattle.op_read.specs.Choices.{chooses};

use dir_tree::NoMemory;
use dir_tree::schema_tables::{AttrId, attr_named, row};
use ldap_msg::plain_values::Octets;
use std::alloc::Global;

/// What a text of a selection chooses (RFC 4511 4.5.1.8).
#[derive(Clone, Copy)]
pub(crate) enum Choice {
    /// All user attributes.
    User,
    /// All operational ones (RFC 3673).
    Operational,
    /// One type.
    Kind(AttrId),
    /// No attribute.
    Nothing,
}

/// What of an entry is asked for: the types, and whether their values are left out.
#[derive(Clone, Copy)]
pub(crate) struct Selection<'a> {
    pub(crate) choices: &'a [Choice],
    pub(crate) kinds_only: bool,
}

// What the text chooses.
fn choice_of(text: &[u8]) -> Choice
    ensures exact { (kind : ℕ) → chooses kind result ≡ is_chosen_by kind text.now }
{
    if text == b"*".as_slice() {
        return Choice::User;
    }
    if text == b"+".as_slice() {
        return Choice::Operational;
    }
    match attr_named(text) {
        Some(kind) => Choice::Kind(kind),
        None => Choice::Nothing,
    }
}

// What texts choose, one after the other.
fn read_texts(alloc: Global, texts: &[Octets]) -> Result<Vec<Choice>, NoMemory>
    ensures ok { IfOk result (λ choices.
        (kind : ℕ) → list_any (chooses kind) choices.items ≡ list_any (is_chosen_by kind) texts.now) }
{
    let mut choices = Vec::with_capacity(alloc, texts.len())?;
    for text in texts {
        choices.push(choice_of(text.as_slice()))?;
    }
    Ok(choices)
}

// All user attributes.
fn all_user(alloc: Global) -> Result<Vec<Choice>, NoMemory>
    ensures ok { IfOk result (λ choices.
        (kind : ℕ) → list_any (chooses kind) choices.items ≡ is_chosen [] kind) }
{
    let mut choices = Vec::new(alloc);
    choices.push(Choice::User)?;
    Ok(choices)
}

/// What a selection chooses: all user attributes where it is empty. The error comes where memory is wanted.
pub(crate) fn read_choices(alloc: Global, texts: &[Octets]) -> Result<Vec<Choice>, NoMemory>
    ensures ok { IfOk result (λ choices.
        (kind : ℕ) → list_any (chooses kind) choices.items ≡ is_chosen texts.now kind) }
{
    match texts {
        [] => all_user(alloc),
        [_, ..] => read_texts(alloc, texts),
    }
}

// Whether the type is operational.
fn is_operational(kind: AttrId) -> bool
    ensures exact { result ≡ is_operational kind.0 }
{
    match row(kind) {
        Some(row) => row.operational,
        None => false,
    }
}

// Whether the choice has the type.
fn chooses(choice: Choice, kind: AttrId) -> bool
    ensures exact { result ≡ chooses kind.0 choice }
{
    match choice {
        Choice::User => !is_operational(kind),
        Choice::Operational => is_operational(kind),
        Choice::Kind(chosen) => chosen.0 == kind.0,
        Choice::Nothing => false,
    }
}

/// Whether a choice has the type.
pub(crate) fn is_chosen(choices: &[Choice], kind: AttrId) -> bool
    ensures exact { result ≡ list_any (chooses kind.0) choices.now }
{
    choices.iter().any(|choice| chooses(*choice, kind))
}
