//! How the program is called, and which version it is.

ghost use Rattle.std.specs.Prelude.{◌≡◌};
ghost use Rattle.acl_program.specs.Helping.{help_text, version_text};
ghost use Rattle.acl_program.specs.Outcomes.{Answered};
ghost use Rattle.command_files.specs.Outside.{written};
ghost use Rattle.acl_program.specs.program.Playing.{Ends};

use crate::status::Status;
use command_files::wire_io::{Sink, write_all};

const HELP: &[u8] =
    b"usage: aclserver COMMAND\n\n  serve DATA ADDRESS [--sessions N] [--turns N] [--queues MIB] [--idle SECONDS] [--limit N] [--changes FILE]\n  replay DATA SCRIPT [--dump] [--turns N]\n  check DATA [--changes FILE | --why]\n  dump DATA [--changes FILE]\n  explain DATA WHO TARGET ITEM PERMISSION\n  prove DATA WHO TARGET ITEM PERMISSION\n  verify DATA CERTIFICATE\n  rights DATA WHO TARGET\n  ask DATA REQUESTS [--script]\n  sample N\n  --help\n  --version\n";

const VERSION: &[u8] = b"aclserver 1.0\n";

/// Prints how the program is called.
#[tactic(auto, unfolding(crate::specs::Outcomes::text_of, crate::specs::Outcomes::status_of))]
pub(crate) fn print_help<K: Sink>(out: &mut K) -> Status
    ensures ends { Ends (Answered help_text) (written (K.put out.old) (K.faults out.old)) result
        (written (K.put out.new) (K.faults out.new)) }
{
    let put = write_all(out, HELP);
    Status::Done.after(put)
}

/// Prints which version the program is.
#[tactic(auto, unfolding(crate::specs::Outcomes::text_of, crate::specs::Outcomes::status_of))]
pub(crate) fn print_version<K: Sink>(out: &mut K) -> Status
    ensures ends { Ends (Answered version_text) (written (K.put out.old) (K.faults out.old)) result
        (written (K.put out.new) (K.faults out.new)) }
{
    let put = write_all(out, VERSION);
    Status::Done.after(put)
}
