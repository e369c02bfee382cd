//! The form of a certificate's text, and the question that it states.

ghost use Rattle.std.specs.Prelude.{◌≡◌, codes, IfOk};
ghost use Rattle.std.specs.Option.{option_map};
ghost use Rattle.dir_tree.specs.plain_values.Answers.{Answers};
ghost use Rattle.line_text.specs.Lines.{lines_of, rest_of};
ghost use Rattle.explanation.specs.NameWords.{name_in, who_of};
ghost use Rattle.explanation.specs.PermissionWords.{permission_of};
ghost use Rattle.explanation.specs.Questions.{item_asked, question_view};
ghost use Rattle.certify.specs.declared.fault.CertFault.TheVariants.{NoMemory};
ghost use Rattle.certify.specs.declared.form_lines.Part.TheVariants.{Scopes};
ghost use Rattle.certify.specs.FormLines.{behind, item_in};
ghost use Rattle.certify.specs.Form.{body_from, cause_of, form_of, from_item, from_permission, from_target, is_last};

use crate::fault::CertFault;
use crate::form_lines::{Part, part_after, read_item_text};
use acdf_filters::Requester;
use acdf_filters::aci_item::Permission;
use dir_tree::NoMemory;
use dir_tree::dn_names::Dn;
use explanation::{AskedDecision, AskedItem, after, permission_named, read_name, read_who};
use line_text::next_line;
use std::alloc::{AllocError, Global};

impl From<AllocError> for CertFault {
    ghost from_gives = { λ _ fault. fault ≡ NoMemory };

    fn from(_error: AllocError) -> CertFault {
        CertFault::NoMemory
    }
}

// Who asks, by the line.
fn read_who_line(alloc: Global, line: &[u8]) -> Result<Option<Requester>, NoMemory>
    ensures { IfOk result (λ who. who ≡ behind (codes "who ") who_of line.now) }
{
    match after(b"who ", line) {
        Some(word) => read_who(alloc, word),
        None => Ok(None),
    }
}

// On which entry.
fn read_target_line(alloc: Global, line: &[u8]) -> Result<Option<Dn>, NoMemory>
    ensures { IfOk result (λ target. target ≡ behind (codes "target ") name_in line.now) }
{
    match after(b"target ", line) {
        Some(word) => read_name(alloc, word),
        None => Ok(None),
    }
}

// On what of the entry.
fn read_item_line(alloc: Global, line: &[u8]) -> Result<Option<AskedItem>, NoMemory>
    ensures { IfOk result (λ item. option_map item_asked item ≡ behind (codes "item ") item_in line.now) }
{
    match after(b"item ", line) {
        Some(text) => read_item_text(alloc, text),
        None => Ok(None),
    }
}

// For which permission.
fn read_permission_line(line: &[u8]) -> Option<Permission>
    ensures { result ≡ behind (codes "permission ") permission_of line.now }
{
    match after(b"permission ", line) {
        Some(word) => permission_named(word),
        None => None,
    }
}

// Whether the outcome has come.
fn is_last(part: Part) -> bool
    ensures { result ≡ is_last part }
{
    match part {
        Part::Scopes => false,
        Part::Tuples => false,
        Part::Outcome => true,
    }
}

// What was asked, where the lines behind it, from the fifth on, are in the form.
fn with_body(alloc: Global, asked: AskedDecision, text: &[u8]) -> Result<AskedDecision, CertFault>
    ensures exact { Answers question_view cause_of result
        (body_from 5 Scopes (rest_of text.now) (question_view asked) (lines_of text.now)) }
{
    let mut part = Part::Scopes;
    let mut rest = text;
    let mut number = 5;
    'lines: while let Some((line, more)) = next_line(rest) {
        let Some(next) = part_after(alloc, part, line)? else {
            return Err(CertFault::Form { line: number });
        };
        part = next;
        rest = more;
        number += 1;
    }
    if is_last(part) && rest.is_empty() {
        Ok(asked)
    } else {
        Err(CertFault::Form { line: number })
    }
}

// What was asked by the requester on the item of the entry, from the line of the permission on.
fn from_permission(
    alloc: Global,
    who: Requester,
    target: Dn,
    item: AskedItem,
    text: &[u8],
) -> Result<AskedDecision, CertFault>
    ensures exact { Answers question_view cause_of result
        (from_permission who target (item_asked item) (rest_of text.now) (lines_of text.now)) }
{
    let Some((line, rest)) = next_line(text) else {
        return Err(CertFault::Form { line: 4 });
    };
    match read_permission_line(line) {
        Some(permission) => with_body(
            alloc,
            AskedDecision {
                who,
                target,
                item,
                permission,
            },
            rest,
        ),
        None => Err(CertFault::Form { line: 4 }),
    }
}

// From the line of the item on.
fn from_item(
    alloc: Global,
    who: Requester,
    target: Dn,
    text: &[u8],
) -> Result<AskedDecision, CertFault>
    ensures exact { Answers question_view cause_of result
        (from_item who target (rest_of text.now) (lines_of text.now)) }
{
    let Some((line, rest)) = next_line(text) else {
        return Err(CertFault::Form { line: 3 });
    };
    match read_item_line(alloc, line)? {
        Some(item) => from_permission(alloc, who, target, item, rest),
        None => Err(CertFault::Form { line: 3 }),
    }
}

// From the line of the target on.
fn from_target(alloc: Global, who: Requester, text: &[u8]) -> Result<AskedDecision, CertFault>
    ensures exact { Answers question_view cause_of result
        (from_target who (rest_of text.now) (lines_of text.now)) }
{
    let Some((line, rest)) = next_line(text) else {
        return Err(CertFault::Form { line: 2 });
    };
    match read_target_line(alloc, line)? {
        Some(target) => from_item(alloc, who, target, rest),
        None => Err(CertFault::Form { line: 2 }),
    }
}

/// The question that a certificate's text states. `Form` comes exactly where the text isn't in the form, with the first bad
/// line, and `False` never.
#[tactic(auto, unfolding(crate::specs::Form::form_of))]
pub(crate) fn read_form(alloc: Global, text: &[u8]) -> Result<AskedDecision, CertFault>
    ensures exact { Answers question_view cause_of result (form_of text.now) }
{
    let Some((line, rest)) = next_line(text) else {
        return Err(CertFault::Form { line: 1 });
    };
    match read_who_line(alloc, line)? {
        Some(who) => from_target(alloc, who, rest),
        None => Err(CertFault::Form { line: 1 }),
    }
}
