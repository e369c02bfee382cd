//! The audit of one connection of a script.

ghost use Rattle.std.specs.Prelude.{◌≡◌, [], IfOk, None};
ghost use Rattle.command_files.specs.aci_item.Rules.{IsGoodTree};
ghost use Rattle.command_files.specs.dir_tree.tree.Numbered.{entries_of};
ghost use Rattle.command_files.specs.wire_io.Scripted.{fresh_link};
ghost use Rattle.event_replay.specs.Played.{ArePlayed, played_steps};
ghost use Rattle.hush_laws.specs.Audits.{IsAudit, first_difference};
ghost use Rattle.hush_laws.specs.Hush.{hush_of_replay};
ghost use Rattle.audit_program.specs.Auditing.{script_steps};
ghost use Rattle.audit_program.specs.Performing.{difference_of};
ghost use Rattle.session_hub.specs.Terms.{no_terms};

use command_files::dir_tree::{NoMemory, Tree};
use command_files::dn_names::Dn;
use command_files::script_text::ScriptEvent;
use command_files::wire_io::ScriptLink;
use event_replay::laws::an_event_opens_once;
use event_replay::{copied_tree, own_events, played_events, sent_to};
use hush_laws::laws::an_audit_finds_no_difference_under_a_hush;
use hush_laws::{Audited, Fault, first_difference};
use hush_watch::find_fault;
use std::alloc::Global;

/// Replays the link's script over the tree, with all of its connections and with that of the number alone: what breaks the
/// hush of the subtree of the name first, and after how many octets what the connection is sent differs. Where nothing
/// breaks the hush, nothing differs. The error comes where memory is wanted.
pub fn audit_script(
    alloc: Global,
    tree: Tree,
    link: ScriptLink,
    number: u32,
    top: &Dn,
) -> Result<Audited, NoMemory>
    requires fresh { link ≡ fresh_link link.plan.to_come [] [] [] }
    requires good { IsGoodTree (entries_of tree) }
    ensures ok { IfOk result (λ audited.
        IsAudit no_terms (entries_of tree) (script_steps link.plan.to_come) number top.now audited) }
    ensures hushed { IfOk result (λ audited. audited.fault ≡ None → audited.differs ≡ None) }
{
    let events = played_events(alloc, link)?;
    let fault = first_fault(alloc, &tree, events.as_slice(), number, top)?;
    let differs = difference(alloc, tree, events, number)?;
    an_event_opens_once();
    an_audit_finds_no_difference_under_a_hush();
    Ok(Audited { fault, differs })
}

// What breaks the hush first while all events are replayed.
fn first_fault(
    alloc: Global,
    tree: &Tree,
    events: &[ScriptEvent],
    number: u32,
    top: &Dn,
) -> Result<Option<Fault>, NoMemory>
    requires played { ArePlayed events.now }
    ensures ok { IfOk result (λ fault.
        fault ≡ hush_of_replay no_terms (entries_of tree.now) (played_steps events.now) number top.now) }
{
    let before = copied_tree(alloc, tree)?;
    let now = copied_tree(alloc, tree)?;
    find_fault(alloc, before, now, events, number, top)
}

// After how many octets what the connection is sent differs from what its own events alone get it.
fn difference(
    alloc: Global,
    tree: Tree,
    events: Vec<ScriptEvent>,
    number: u32,
) -> Result<Option<u64>, NoMemory>
    requires played { ArePlayed events.items }
    ensures ok { IfOk result (λ differs.
        differs ≡ difference_of (entries_of tree) (played_steps events.items) number) }
{
    let own = own_events(alloc, events.as_slice(), number)?;
    let copy = copied_tree(alloc, &tree)?;
    let alone = sent_to(alloc, copy, own, number)?;
    let all = sent_to(alloc, tree, events, number)?;
    Ok(compared(&all, &alone))
}

// How long the common front of two replies is where they differ.
fn compared(all: &Vec<u8>, alone: &Vec<u8>) -> Option<u64>
    ensures exact { result ≡ first_difference all.now.items alone.now.items }
{
    let count = first_difference(all.as_slice(), alone.as_slice())?;
    Some(count as u64)
}
