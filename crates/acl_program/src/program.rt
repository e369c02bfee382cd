//! The program's one call.

ghost use Rattle.std.specs.Prelude.{◌≡◌, map, string_bytes};
ghost use Rattle.command_files.specs.plain_values.Counts.{Rose};
ghost use Rattle.acl_program.specs.program.Causes.{AsksServing, IsNoCommand, IsDue};
ghost use Rattle.acl_program.specs.Outcomes.{Outcome};
ghost use Rattle.acl_program.specs.program.Running.{Prints, EndsAs, IsCause, EndsAtFaults};
ghost use Rattle.acl_program.specs.program.Playing.{Runs, Performs};
ghost use Rattle.acl_program.specs.program.Twins.{PrintsAlike};
ghost use Rattle.acl_program.specs.Sampling.{IsFew};
ghost use Rattle.command_words.specs.command.Command.{view};

use crate::asking::tell_replies;
use crate::data::{check, dump};
use crate::decisions::{Account, tell_decision};
use crate::help::{print_help, print_version};
use crate::outside::Outside;
use crate::replay::replay;
use crate::rights_table::tell_rights;
use crate::sample::sample;
use crate::serve::serve;
use crate::status::Status;
use crate::troubles::print_usage;
use crate::verifying::tell_validity;
use crate::why::tell_why;
use command_files::wire_io::{Link, Shelf, Sink};
use command_words::{Command, read_words};
use std::alloc::Global;

/// Does what the words after the program's name ask for, and says how it ended.
///
/// `check DATA [--changes FILE]` loads the data file and puts `ok E S`: E counts its entries, and S its access control
/// subentries. With `--changes` the changes of the file, change records (RFC 2849) whose head has the SHA-256 of the data
/// file, are applied first, in their order and without asking for permission; E and S count what is left, and a line
/// `changes N torn M` follows: N changes were applied, and M octets stand behind the last whole record.
/// `check DATA --why` puts more behind its first line: of a data file that isn't accepted, where in its first bad record the
/// fault is; and of one that is, what may surprise in it. It takes no file of changes.
/// `dump DATA [--changes FILE]` puts the tree that is left as a data file. `replay DATA SCRIPT [--dump] [--turns N]` loads
/// the data file, reads the script file, serves its events as those of a link's connections, at most N of them, and puts
/// one line for each connection: its number, what was sent to it, and whether it was hung up; with `--dump` the tree
/// follows as a data file. `explain DATA WHO TARGET ITEM PERMISSION` loads the data file and puts one access control
/// decision over it, filter by filter. `prove DATA WHO TARGET ITEM PERMISSION` puts the same decision as a certificate, and
/// `verify DATA CERTIFICATE` loads the data file, reads the certificate, and puts `valid granted` or `valid refused` where
/// it is that of the loaded tree, and else its first line that isn't, as `false line L`. `rights DATA WHO TARGET` puts all
/// decisions on one entry and what it holds. `ask DATA REQUESTS [--script]` loads the data file, reads the requests, serves
/// them as those of one connection, and puts the replies; with `--script` it serves nothing, and puts the script that sends
/// the requests. `sample N` makes a data file of N persons, half of whom access control hides, serves one connection that
/// searches for each of them, and puts how many entries there are, how many were sent, and how many replies say that there
/// is no such object. `--help` puts how the program is called, and `--version` which version it is. These leave the link as
/// it is.
///
/// `serve DATA ADDRESS [--sessions N] [--turns N] [--queues MIB] [--idle SECONDS] [--limit N] [--changes FILE]` loads the data
/// file, tells the link after how many seconds of silence a connection ends, opens it at the address, puts
/// `listening ADDRESS`, and serves the link's connections until it gives Stop, at most as many events as turns. No search is
/// given more than so many entries, and a connection is closed that leaves untaken more than is left of so many MiB for all.
/// Where the link fails it puts `link fault`, and where the turns are spent `turns spent`. Other words put a line on how to
/// call the program.
///
/// With `--changes` the link's store of that name is opened once the data file is loaded, and then the file is read and its
/// changes are applied, as `check` does it; a file that is empty, or cut within the head that belongs to the data file, has
/// none. The store is cut to what is whole of the file, and the head of the data file is stored where nothing is. The line
/// `changes N torn M` comes with `listening ADDRESS`. The record of each change that is accepted is stored before any reply
/// leaves that may show it. Where a call of the store fails it puts `store fault`.
///
/// The data file is read before any other. A file that isn't there, or that the shelf can't read, puts `data fault`; a
/// file that isn't accepted puts its first bad line. A file of changes puts the line of its digest where that is of another
/// data file, and the first line of the record that can't be applied, with the number of the LDAP result code.
pub fn run<H: Shelf, K: Sink, L: Link>(
    alloc: Global,
    words: &[String],
    outside: &mut Outside<H, K, L>,
) -> Status
    // what is put: the text of an outcome that comes, with its status; or a front of it. And what is done with the link
    ensures text { Prints (map string_bytes words.now) outside.old result outside.new }
    // where the files are told and accepted, the command is done; serving where the link then gives Stop
    ensures complete { (outcome : Outcome) → IsDue (map string_bytes words.now) outside.old.shelf.files outside.old.link outside.new.link outcome
        → (Rose outside.old.shelf.faults outside.new.shelf.faults → ⊥) → (Rose outside.old.out.faults outside.new.out.faults → ⊥)
        → EndsAs outcome result }
    // over twins a replay puts the same lines
    ensures twins { PrintsAlike (map string_bytes words.now) outside.old result outside.new }
    // each refusal
    ensures usage { result ≡ Status.Usage → IsNoCommand (map string_bytes words.now) }
    ensures refused { IsCause (map string_bytes words.now) outside.old outside.new result }
    ensures faults { EndsAtFaults outside.old outside.new result }
    // what stays
    ensures link { (AsksServing (map string_bytes words.now) → ⊥) → outside.new.link ≡ outside.old.link }
    ensures shelf { outside.new.shelf.files ≡ outside.old.shelf.files }
{
    run_words(alloc, words, outside)
}

/// The same, with all that is known of its outcome.
fn run_words<H: Shelf, K: Sink, L: Link>(
    alloc: Global,
    words: &[String],
    outside: &mut Outside<H, K, L>,
) -> Status
    ensures runs { Runs (map string_bytes words.now) outside.old result outside.new }
    ensures kept { outside.new.shelf.files ≡ outside.old.shelf.files }
{
    match read_words(alloc, words) {
        Ok(Some(command)) => perform(alloc, command, outside),
        Ok(None) => print_usage(&mut outside.out),
        Err(_) => Status::NoMemory,
    }
}

/// Does what a command asks for.
#[tactic(auto, unfolding(crate::specs::program::Playing::Performs))]
fn perform<H: Shelf, K: Sink, L: Link>(
    alloc: Global,
    command: Command<'_>,
    outside: &mut Outside<H, K, L>,
) -> Status
    requires few { IsFew (view command) }
    ensures performs { Performs (view command.entry) outside.old result outside.new }
    ensures kept { outside.new.shelf.files ≡ outside.old.shelf.files }
{
    match command {
        Command::Serve(asked) => serve(alloc, &asked, outside),
        Command::Replay(asked) => replay(alloc, &asked, outside),
        Command::Check(asked) => check(alloc, &asked, outside),
        Command::Why { data } => tell_why(alloc, data, outside),
        Command::Dump(asked) => dump(alloc, &asked, outside),
        Command::Explain(asked) => { tell_decision(alloc, Account::Explanation, &asked, outside) }
        Command::Sample { count } => sample(alloc, count, outside),
        Command::Ask(asked) => tell_replies(alloc, &asked, outside),
        Command::Prove(asked) => tell_decision(alloc, Account::Certificate, &asked, outside),
        Command::Verify(asked) => tell_validity(alloc, &asked, outside),
        Command::Rights(asked) => tell_rights(alloc, &asked, outside),
        Command::Help => print_help(&mut outside.out),
        Command::Version => print_version(&mut outside.out),
    }
}
