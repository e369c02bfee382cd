//! Certificates, verified.

ghost use Rattle.std.specs.Prelude.{◌≡◌, Some, false, IfOk, map};
ghost use Rattle.std.specs.Option.{option_map_or};
ghost use Rattle.dir_tree.specs.plain_values.Answers.{Answers};
ghost use Rattle.dir_tree.specs.tree.Numbered.{entries_of, entry_of};
ghost use Rattle.line_text.specs.Lines.{lines_of};
ghost use Rattle.explanation.specs.Cutting.{after};
ghost use Rattle.explanation.specs.Questions.{question_view};
ghost use Rattle.certify.specs.Lines.{line_of};
ghost use Rattle.certify.specs.Comparing.{agrees, compared, spells};
ghost use Rattle.certify.specs.Form.{cause_of};
ghost use Rattle.certify.specs.Verifying.{checked, verified};

use crate::certifying::certify;
use crate::fault::CertFault;
use crate::form::read_form;
use crate::lines::Line;
use acdf_filters::Question;
use admin_scope::in_force;
use dir_tree::dn_names::{Dn, same};
use dir_tree::{NoMemory, Tree};
use directory::{NumberedEntry, find_entry};
use explanation::{AskedDecision, after, read_name};
use line_text::next_line;
use std::alloc::Global;

// Whether the text is a spelling of the name.
fn spells(alloc: Global, name: &Dn, text: &[u8]) -> Result<bool, NoMemory>
    ensures { IfOk result (λ is. is ≡ spells name.now text.now) }
{
    match read_name(alloc, text)? {
        Some(given) => Ok(same(name, &given)),
        None => Ok(false),
    }
}

// Whether the text is the word before a spelling of the name.
fn is_before(alloc: Global, word: &[u8], name: &Dn, text: &[u8]) -> Result<bool, NoMemory>
    ensures { IfOk result (λ is. is ≡ option_map_or (spells name.now) (after word.now text.now) false) }
{
    match after(word, text) {
        Some(rest) => spells(alloc, name, rest),
        None => Ok(false),
    }
}

// Whether the line that is given is the certificate's.
#[tactic(auto, unfolding(crate::specs::Comparing::agrees))]
fn agrees(alloc: Global, given: &[u8], line: &Line) -> Result<bool, NoMemory>
    ensures { IfOk result (λ is. is ≡ agrees given.now (line_of line.now)) }
{
    match &line.name {
        Some(name) => is_before(alloc, &line.text, name, given),
        None => Ok(given == line.text.as_slice()),
    }
}

// Whether the lines of a text are those of the certificate.
fn compare(alloc: Global, text: &[u8], lines: &[Line]) -> Result<(), CertFault>
    ensures exact { Answers (λ same. same) cause_of result
        (compared 1 (lines_of text.now) (map line_of lines.now)) }
{
    let mut rest = text;
    let mut number = 1;
    for line in lines {
        let Some((given, more)) = next_line(rest) else {
            return Err(CertFault::False { line: number });
        };
        if !agrees(alloc, given, line)? {
            return Err(CertFault::False { line: number });
        }
        rest = more;
        number += 1;
    }
    match next_line(rest) {
        Some(_) => Err(CertFault::False { line: number }),
        None => Ok(()),
    }
}

// What is decided on the entry, where the text has the lines of the certificate.
#[tactic(auto, unfolding(acdf_filters::specs::Granted::granted))]
fn check<'a>(
    alloc: Global,
    tree: &'a Tree,
    asked: &'a AskedDecision,
    found: NumberedEntry<'a>,
    text: &[u8],
) -> Result<bool, CertFault>
    requires { entry_of found.number.0 tree.now ≡ Some found.entry.now }
    ensures exact { Answers (λ granted. granted) cause_of result (checked (entries_of tree.now) (lines_of text.now)
        (question_view asked.now) (Some found.entry.entry.now)) }
{
    let numbers = in_force(alloc, tree, found.number)?;
    let question = Question {
        who: &asked.who,
        entry: found.entry,
        item: asked.item.item(),
        permission: asked.permission,
        after: None,
        tree,
        known: &[],
    };
    let certified = certify(alloc, &question, found.number, &numbers)?;
    compare(alloc, text, &certified.lines)?;
    Ok(certified.granted)
}

/// Whether the access control decision (X.501 18.8) that the certificate's text states is a grant, as it is over the tree.
/// Names may have any spelling (RFC 4514), all else has one.
/// `Form` comes exactly where the text isn't in the form of a certificate; else `False` comes exactly where its lines aren't
/// those of the certificate of what the first four ask. `NoMemory` comes where memory is wanted.
#[tactic(auto, unfolding(crate::specs::Verifying::verified))]
pub fn verify(alloc: Global, tree: &Tree, text: &[u8]) -> Result<bool, CertFault>
    ensures exact { Answers (λ granted. granted) cause_of result (verified (entries_of tree.now) text.now) }
{
    let asked = read_form(alloc, text)?;
    match find_entry(tree, &asked.target) {
        Some(found) => check(alloc, tree, &asked, found, text),
        None => Err(CertFault::False { line: 2 }),
    }
}
