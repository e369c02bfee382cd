//! What is printed of words that are no command, and of files that aren't read.

ghost use Rattle.std.specs.Prelude.{◌≡◌};
ghost use Rattle.command_files.specs.Outside.{written};
ghost use Rattle.acl_program.specs.Outcomes.{NoCommand, status_of};
ghost use Rattle.acl_program.specs.program.Playing.{Ends};
ghost use Rattle.acl_program.specs.Troubles.{outcome_of};

use crate::status::Status;
use command_files::wire_io::{Sink, write_all};
use command_files::{Trouble, put_trouble};
use std::alloc::Global;

const USAGE: &[u8] =
    b"usage: aclserver (serve|replay|check|dump|explain|sample|ask|prove|verify|rights) WORDS\n";

/// Prints that the words are no command.
#[tactic(auto, unfolding(crate::specs::Outcomes::text_of, crate::specs::Outcomes::status_of))]
pub(crate) fn print_usage<K: Sink>(out: &mut K) -> Status
    ensures ends { Ends NoCommand (written (K.put out.old) (K.faults out.old)) result
        (written (K.put out.new) (K.faults out.new)) }
{
    let put = write_all(out, USAGE);
    Status::Usage.after(put)
}

/// Prints why a file wasn't read.
pub(crate) fn print_trouble<K: Sink>(alloc: Global, trouble: Trouble, out: &mut K) -> Status
    ensures ends { Ends (outcome_of trouble) (written (K.put out.old) (K.faults out.old)) result
        (written (K.put out.new) (K.faults out.new)) }
{
    let put = put_trouble(alloc, trouble, out);
    trouble_status(trouble).after(put)
}

/// How the program ends after a file that wasn't read.
#[tactic(auto, unfolding(crate::specs::Outcomes::status_of))]
fn trouble_status(trouble: Trouble) -> Status
    ensures exact { result ≡ status_of (outcome_of trouble) }
{
    match trouble {
        Trouble::NoFile => Status::ShelfFault,
        Trouble::BadData(_, _) => Status::BadData,
        Trouble::BadChanges(_, _) => Status::BadData,
        Trouble::BadLine(_, _) => Status::BadScript,
        Trouble::NoMemory => Status::NoMemory,
    }
}
