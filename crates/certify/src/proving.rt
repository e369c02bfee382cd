//! The certificate of a decision.

ghost use Rattle.std.specs.Prelude.{◌≡◌, ◌++◌, Some, None, Ok, IfOk, OnOk, OnErr, drop, length, map};
ghost use Rattle.dir_tree.specs.Entry.{EntryInformation};
ghost use Rattle.dir_tree.specs.tree.Trees.{named_in};
ghost use Rattle.dir_tree.specs.tree.Numbered.{entry_of, entries_of, entries_at};
ghost use Rattle.acdf_filters.specs.admin_scope.InForce.{in_force};
ghost use Rattle.acdf_filters.specs.Asking.{protected_of, asked_on};
ghost use Rattle.acdf_filters.specs.Granted.{granted};
ghost use Rattle.acdf_filters.specs.weighing.Weighing.{KnowsGroups, asked_of};
ghost use Rattle.explanation.specs.Questions.{item_asked, question_view};
ghost use Rattle.certify.specs.Certificate.{certificate_text, proved_text, text_proved};
ghost use Rattle.certify.specs.Verifying.{verified};
ghost use Rattle.certify.specs.Readable.{AreSaid, HaveGoodNames};

use crate::certifying::certify;
use crate::printing::put_lines;
use acdf_filters::aci_item::Permission;
use acdf_filters::{Item, Question, Requester};
use dir_tree::dn_names::Dn;
use dir_tree::{EntryNo, NoMemory};
use directory::{Asking, Dir, NumberedEntry, Target, find_entry};
use explanation::AskedDecision;
use std::alloc::Global;

// The text of the certificate of the decision on the question, on the entry of the number, for which the subentries of the
// numbers are in force.
fn question_text(
    alloc: Global,
    question: &Question<'_>,
    number: EntryNo,
    numbers: &[EntryNo],
) -> Result<Vec<u8>, NoMemory>
    requires groups { KnowsGroups question.now }
    requires entry { entry_of number.0 question.now.tree.now ≡ Some question.now.entry.now }
    requires in_force { entries_at question.now.tree.now (map (λ no. no.0) numbers.now)
        ≡ in_force (entries_of question.now.tree.now) question.now.entry.now }
    ensures ok { IfOk result (λ text. text.items
        ≡ certificate_text (entries_of question.now.tree.now) (asked_of question.now) question.now.entry.now) }
{
    let certified = certify(alloc, question, number, numbers)?;
    let mut text = Vec::new(alloc);
    put_lines(alloc, &certified.lines, &mut text)?;
    Ok(text)
}

// The same on the item of the entry that is asked about.
fn item_text<D: Dir>(
    alloc: Global,
    target: &Target<'_, '_, D>,
    item: Item<'_>,
    permission: Permission,
) -> Result<Vec<u8>, NoMemory>
    ensures ok { IfOk result (λ text. text.items ≡ certificate_text (entries_of (D.rows target.now.asking.now.dir.now))
        (asked_on target.now.asking.now.who.now target.now.entry.now (protected_of item.entry) permission)
        target.now.entry.now) }
{
    let question = target.question(item, permission);
    let numbers = target.asking.dir.in_force(target.number);
    question_text(alloc, &question, target.number, numbers)
}

// The same, for who the requester is.
fn entry_text<D: Dir>(
    alloc: Global,
    dir: &D,
    who: &Requester,
    found: NumberedEntry<'_>,
    item: Item<'_>,
    permission: Permission,
) -> Result<Vec<u8>, NoMemory>
    requires entry { entry_of found.number.0 (D.rows dir.now) ≡ Some found.entry.now }
    ensures ok { IfOk result (λ text. text.items ≡ certificate_text (entries_of (D.rows dir.now))
        (asked_on who.now found.entry.entry.now (protected_of item.entry) permission) found.entry.entry.now) }
{
    let asking = Asking::new(alloc, dir, who)?;
    let target = Target {
        asking: &asking,
        number: found.number,
        entry: found.entry,
    };
    item_text(alloc, &target, item, permission)
}

/// Appends the certificate of the access control decision on the item of the entry of the number (X.501 18.8): what is
/// asked, the access control subentries below the points of the entry, how far each tuple comes that counts for it, and
/// what is decided. Each line ends in LF, and has no other. A value that is added is added alone. Nothing is appended where
/// the number is not in use. After the error, want of memory, `out` is as before.
pub fn prove<D: Dir>(
    alloc: Global,
    dir: &D,
    who: &Requester,
    number: EntryNo,
    item: Item<'_>,
    permission: Permission,
    out: &mut Vec<u8>,
) -> Result<(), NoMemory>
    ensures ok { (entry : EntryInformation) → entry_of number.0 (D.rows dir.now) ≡ Some entry
        → OnOk result (out.new.items ≡ out.old.items ++ certificate_text (entries_of (D.rows dir.now))
        (asked_on who.now entry (protected_of item.entry) permission) entry) }

    // `verify` accepts what is appended, where words say what is asked and the names of the entries are good
    ensures accepted { (entry : EntryInformation) → entry_of number.0 (D.rows dir.now) ≡ Some entry
        → HaveGoodNames (entries_of (D.rows dir.now)) → AreSaid who.now (protected_of item.entry) permission
        → OnOk result (verified (entries_of (D.rows dir.now)) (drop (length out.old.items) out.new.items)
        ≡ Ok (granted (entries_of (D.rows dir.now)) who.now entry (protected_of item.entry) permission)) }

    // nothing is appended
    ensures absent { entry_of number.0 (D.rows dir.now) ≡ None → out.new.items ≡ out.old.items }
    ensures err { OnErr result (out.new.items ≡ out.old.items) }
{
    let tree = dir.tree();
    tree.entries_form_a_tree();
    let Some(entry) = tree.at(number) else {
        return Ok(());
    };
    let found = NumberedEntry { number, entry };
    let text = entry_text(alloc, dir, who, found, item, permission)?;
    out.extend_from_slice(&text)
}

// The text of the certificate of the decision on the item of the entry of the name.
fn target_text<D: Dir>(
    alloc: Global,
    dir: &D,
    who: &Requester,
    target: &Dn,
    item: Item<'_>,
    permission: Permission,
) -> Result<Vec<u8>, NoMemory>
    ensures ok { IfOk result (λ text. text.items ≡ proved_text (entries_of (D.rows dir.now)) who.now
        target.now (protected_of item.entry) permission) }
{
    match find_entry(dir.tree(), target) {
        Some(found) => entry_text(alloc, dir, who, found, item, permission),
        None => Vec::from_slice(alloc, b"absent\n"),
    }
}

/// The certificate of the decision that the question asks for, as `prove` appends it; `absent` where no entry has the name.
/// The error comes where memory is wanted.
pub fn prove_text<D: Dir>(
    alloc: Global,
    dir: &D,
    question: &AskedDecision,
) -> Result<Vec<u8>, NoMemory>
    ensures ok { IfOk result (λ text. text.items ≡ text_proved (entries_of (D.rows dir.now)) (question_view question.now)) }

    // `verify` accepts the text where an entry has the name, words say what is asked and the names of the entries are good
    ensures accepted { (entry : EntryInformation) → named_in question.now.target (entries_of (D.rows dir.now)) ≡ Some entry
        → HaveGoodNames (entries_of (D.rows dir.now))
        → AreSaid question.now.who (item_asked question.now.item) question.now.permission
        → IfOk result (λ text. verified (entries_of (D.rows dir.now)) text.items
        ≡ Ok (granted (entries_of (D.rows dir.now)) question.now.who entry
        (item_asked question.now.item) question.now.permission)) }
{
    let item = question.item.item();
    target_text(
        alloc,
        dir,
        &question.who,
        &question.target,
        item,
        question.permission,
    )
}
