//! What is put of words that ask for no audit, and of files that aren't read.

ghost use Rattle.std.specs.Prelude.{◌≡◌};
ghost use Rattle.command_files.specs.Ending.{EndsBy};
ghost use Rattle.command_files.specs.Outside.{written};
ghost use Rattle.command_files.specs.Troubles.{trouble_text};
ghost use Rattle.audit_program.specs.Statuses.{put_statuses, trouble_status, usage_text};

use crate::status::AuditStatus;
use command_files::wire_io::{Sink, write_all};
use command_files::{Trouble, put_trouble};
use std::alloc::Global;

/// Puts how to call the program.
pub(crate) fn print_usage<K: Sink>(out: &mut K) -> AuditStatus
    ensures ends { EndsBy put_statuses usage_text AuditStatus.Usage (written (K.put out.old) (K.faults out.old)) result
        (written (K.put out.new) (K.faults out.new)) }
{
    let put = write_all(out, b"usage: leak_audit DATA SCRIPT N NAME\n");
    AuditStatus::Usage.after(put)
}

/// Puts why a file wasn't read.
pub(crate) fn print_trouble<K: Sink>(alloc: Global, trouble: Trouble, out: &mut K) -> AuditStatus
    ensures ends { EndsBy put_statuses (trouble_text trouble) (trouble_status trouble)
        (written (K.put out.old) (K.faults out.old)) result
        (written (K.put out.new) (K.faults out.new)) }
{
    let put = put_trouble(alloc, trouble, out);
    trouble_status(trouble).after(put)
}

/// How the program ends after a file that wasn't read.
fn trouble_status(trouble: Trouble) -> AuditStatus
    ensures exact { result ≡ trouble_status trouble }
{
    match trouble {
        Trouble::NoFile => AuditStatus::ShelfFault,
        Trouble::BadData(_, _) => AuditStatus::BadData,
        Trouble::BadLine(_, _) => AuditStatus::BadScript,
        Trouble::BadChanges(_, _) => AuditStatus::BadData,
        Trouble::NoMemory => AuditStatus::NoMemory,
    }
}
