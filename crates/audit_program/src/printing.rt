//! The two lines of an audit.

ghost use Rattle.std.specs.Prelude.{◌≡◌, IfOk, Some, string_bytes};
ghost use Rattle.command_files.specs.Ending.{EndsBy};
ghost use Rattle.command_files.specs.Outside.{written};
ghost use Rattle.hush_laws.specs.Audits.{audit_text, difference_text, fault_text};
ghost use Rattle.audit_program.specs.Statuses.{put_statuses};

use crate::status::AuditStatus;
use command_files::wire_io::{Sink, write_all};
use hush_laws::{Audited, Fault};
use std::alloc::{AllocError, Global};

/// Puts both lines of an audit.
pub(crate) fn print_audit<K: Sink>(alloc: Global, audited: Audited, out: &mut K) -> AuditStatus
    ensures ends { EndsBy put_statuses (audit_text audited) AuditStatus.Done
        (written (K.put out.old) (K.faults out.old)) result
        (written (K.put out.new) (K.faults out.new)) }
{
    let Ok(text) = audit_text(alloc, audited) else {
        return AuditStatus::NoMemory;
    };
    let put = write_all(out, text.as_bytes());
    AuditStatus::Done.after(put)
}

// Both lines.
fn audit_text(alloc: Global, audited: Audited) -> Result<String, AllocError>
    ensures { IfOk result (λ text. string_bytes text ≡ audit_text audited) }
{
    let mut text = fault_text(alloc, audited.fault)?;
    let difference = difference_text(alloc, audited.differs)?;
    text.push_str(difference.as_str())?;
    Ok(text)
}

// The line of what breaks the hush first.
fn fault_text(alloc: Global, fault: Option<Fault>) -> Result<String, AllocError>
    ensures { IfOk result (λ text. string_bytes text ≡ fault_text fault) }
{
    match fault {
        Some(fault) => broken_text(alloc, fault),
        None => String::from_str(alloc, "hush yes\n"),
    }
}

fn broken_text(alloc: Global, fault: Fault) -> Result<String, AllocError>
    ensures { IfOk result (λ text. string_bytes text ≡ fault_text (Some fault)) }
{
    let heard = fault.heard;
    let part = fault.part.number();
    format!(in alloc; "hush no at {heard}: part {part}\n")
}

// The line of where the replies differ.
fn difference_text(alloc: Global, differs: Option<u64>) -> Result<String, AllocError>
    ensures { IfOk result (λ text. string_bytes text ≡ difference_text differs) }
{
    match differs {
        Some(count) => format!(in alloc; "differs at {count}\n"),
        None => String::from_str(alloc, "same\n"),
    }
}
