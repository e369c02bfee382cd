//! The commands, and the words that ask for them.

ghost use Rattle.std.specs.Prelude.{◌≡◌, ◌∷◌, map, option_map, string_bytes, Some, IfOk, IfSome};
ghost use Rattle.command_words.specs.command.Command.{CommandView, IsCommand, view, limit_range};
ghost use Rattle.command_words.specs.Number.{number_said};
ghost use Rattle.command_words.specs.parser.Parser.{kept_in, kept_text};
ghost use Rattle.command_words.specs.parser.Asked.{IsRead, IsReading, kept_said, said_by};

use crate::address::address_of;
use crate::number::{NumberRange, number_said, number_within};
use crate::parser::{is_set, kept_count, kept_text, parse};
use crate::table::{CommandName, OptionName, Sought};
use clap::ArgMatches;
use std::alloc::{AllocError, Global};

/// The numbers of `--sessions`: without it the serving never ends.
const SESSIONS: NumberRange = NumberRange {
    absent: 0,
    least: 0,
    greatest: u64::MAX,
};

/// The numbers of `--turns`.
const TURNS: NumberRange = NumberRange {
    absent: 1_000_000_000_000,
    least: 0,
    greatest: u64::MAX,
};

/// The numbers of `--queues`, in MiB.
const QUEUES: NumberRange = NumberRange {
    absent: 256,
    least: 1,
    greatest: 65_536,
};

/// The numbers of `--idle`, in seconds: without it no connection ends for its silence.
const IDLE: NumberRange = NumberRange {
    absent: 0,
    least: 1,
    greatest: 4_294_967_295,
};

/// The numbers of `--limit`, as RFC 4511 4.5.1 has sizeLimit: without it there is none.
const LIMIT: NumberRange = NumberRange {
    absent: 0,
    least: 1,
    greatest: 2_147_483_647,
};

/// What `serve` is asked for.
#[derive(Clone, Copy, Debug, Drop)]
pub struct Serving<'a> {
    /// The name of the data file.
    pub data: &'a str,
    /// `127.0.0.1:` and a port.
    pub address: &'a str,
    /// After how many connections the serving ends; 0: never.
    pub sessions: u64,
    /// How many events are heard at most.
    pub turns: u64,
    /// How many MiB the queues of all connections may have, from 1 to 65,536.
    pub queues: u64,
    /// After how many seconds of silence a connection ends, at most 4,294,967,295; 0: never.
    pub idle: u64,
    /// How many entries one search is given at most, at most 2,147,483,647; 0: all.
    pub limit: u32,
    /// The name of the file of changes, where there is one.
    pub changes: Option<&'a str>,
}

/// What `replay` is asked for.
#[derive(Clone, Copy, Debug, Drop)]
pub struct Replaying<'a> {
    /// The name of the data file.
    pub data: &'a str,
    /// The name of the script file.
    pub script: &'a str,
    /// How many events are heard at most.
    pub turns: u64,
    /// Whether the tree that is left is asked for.
    pub dump: bool,
}

/// What `check` and `dump` are asked for.
#[derive(Clone, Copy, Debug, Drop)]
pub struct Loading<'a> {
    /// The name of the data file.
    pub data: &'a str,
    /// The name of the file of its changes, where there is one.
    pub changes: Option<&'a str>,
}

/// What `explain` and `prove` are asked for: one decision, by texts as they stand.
#[derive(Clone, Copy, Debug, Drop)]
pub struct Deciding<'a> {
    /// The name of the data file.
    pub data: &'a str,
    /// Who asks.
    pub who: &'a str,
    /// The name of the entry.
    pub target: &'a str,
    /// The protected item.
    pub item: &'a str,
    /// The permission.
    pub permission: &'a str,
}

/// What `ask` is asked for.
#[derive(Clone, Copy, Debug, Drop)]
pub struct Asking<'a> {
    /// The name of the data file.
    pub data: &'a str,
    /// The name of the file of requests.
    pub requests: &'a str,
    /// Whether the script that sends the requests is asked for in place of their replies.
    pub script: bool,
}

/// What `verify` is asked for.
#[derive(Clone, Copy, Debug, Drop)]
pub struct Verifying<'a> {
    /// The name of the data file.
    pub data: &'a str,
    /// The name of the certificate's file.
    pub certificate: &'a str,
}

/// What `rights` is asked for: all decisions on one entry, by texts as they stand.
#[derive(Clone, Copy, Debug, Drop)]
pub struct RightsAsked<'a> {
    /// The name of the data file.
    pub data: &'a str,
    /// Who asks.
    pub who: &'a str,
    /// The name of the entry.
    pub target: &'a str,
}

/// What the words of the program ask for. Its texts are parts of the words.
#[derive(Clone, Copy, Debug, Drop)]
pub enum Command<'a> {
    /// `serve DATA ADDRESS [--sessions N] [--turns N] [--queues MIB] [--idle SECONDS] [--limit N] [--changes FILE]`.
    Serve(Serving<'a>),
    /// `replay DATA SCRIPT [--dump] [--turns N]`.
    Replay(Replaying<'a>),
    /// `check DATA [--changes FILE]`.
    Check(Loading<'a>),
    /// `check DATA --why`: the name of the file. No words ask for this with a file of changes.
    Why { data: &'a str },
    /// `dump DATA [--changes FILE]`.
    Dump(Loading<'a>),
    /// `explain DATA WHO TARGET ITEM PERMISSION`.
    Explain(Deciding<'a>),
    /// `sample N`: how many persons the sample has, from 1 to 20,000.
    Sample { count: u64 },
    /// `ask DATA REQUESTS [--script]`.
    Ask(Asking<'a>),
    /// `prove DATA WHO TARGET ITEM PERMISSION`: as `explain`, but for the certificate of the decision.
    Prove(Deciding<'a>),
    /// `verify DATA CERTIFICATE`.
    Verify(Verifying<'a>),
    /// `rights DATA WHO TARGET`.
    Rights(RightsAsked<'a>),
    /// `--help`: how the program is called.
    Help,
    /// `--version`: which version of the program this is.
    Version,
}

/// The command that the words after the program's name ask for, or `None` where they ask for none.
///
/// The first word is the command's name. After it operands and options stand in any order, each option
/// at most once, as `--name text`, `--name=text` or, for one without an argument, `--name`; words after
/// `--` are operands, and so is `-` alone (POSIX.1, Utility Syntax Guidelines; GNU's long options).
/// A number stands in one to twenty decimal digits, and is in the range of its option; an address is `127.0.0.1:` and a port
/// in one to five decimal digits, from 1 to 65,535; the name of a file is any text. `--why` and `--changes` stand together in
/// no command. An `AllocError` comes where memory is wanted, and says
/// nothing of the words.
pub fn read_words<'a>(alloc: Global, words: &'a [String]) -> Result<Option<Command<'a>>, AllocError>
    ensures found { IfOk result (λ read. IfSome read (λ command.
        IsCommand (map string_bytes words.now) (view command))) }
    ensures only { IfOk result (λ read. (asked : CommandView) → IsCommand (map string_bytes words.now) asked
        → option_map view read ≡ Some asked) }
{
    read_first(alloc, words)
}

/// The same by the first word and the others.
fn read_first<'a>(alloc: Global, words: &'a [String]) -> Result<Option<Command<'a>>, AllocError>
    ensures { IfOk result (λ read. IsReading (map string_bytes words.now) (option_map view read)) }
{
    match words.split_first() {
        Some((first, words)) => read_rest(alloc, first.as_str(), words),
        None => Ok(None),
    }
}

/// The same by the command that the first word names.
fn read_rest<'a>(
    alloc: Global,
    first: &str,
    words: &'a [String],
) -> Result<Option<Command<'a>>, AllocError>
    ensures { IfOk result (λ read. IsReading (first.now ∷ map string_bytes words.now) (option_map view read)) }
{
    match CommandName::named(first) {
        Some(command) => read_line(alloc, command, words),
        None => Ok(None),
    }
}

/// What the words after a command's name ask for.
fn read_line<'a>(
    alloc: Global,
    command: CommandName,
    words: &'a [String],
) -> Result<Option<Command<'a>>, AllocError>
    ensures { IfOk result (λ read. IsRead command (map string_bytes words.now) (option_map view read)) }
{
    match parse(alloc, command, words)? {
        Some(matches) => Ok(read_matches(command, &matches)),
        None => Ok(None),
    }
}

/// What the matches say, where they have as many operands as the command wants.
#[tactic(auto, unfolding(crate::specs::parser::Asked::said_by))]
fn read_matches<'a>(command: CommandName, matches: &ArgMatches<'a>) -> Option<Command<'a>>
    ensures { option_map view result ≡ said_by command (kept_in matches.now) }
{
    if kept_count(matches, Sought::Operands) == command.operands() {
        read_kept(command, matches)
    } else {
        None
    }
}

/// What the matches of a command say.
fn read_kept<'a>(command: CommandName, matches: &ArgMatches<'a>) -> Option<Command<'a>>
    ensures { option_map view result ≡ kept_said command (kept_in matches.now) }
{
    match command {
        CommandName::Serve => read_serve(matches),
        CommandName::Replay => read_replay(matches),
        CommandName::Check => read_check(matches),
        CommandName::Dump => read_dump(matches),
        CommandName::Explain => read_explain(matches),
        CommandName::Sample => read_sample(matches),
        CommandName::Ask => read_ask(matches),
        CommandName::Prove => read_prove(matches),
        CommandName::Verify => read_verify(matches),
        CommandName::Rights => read_rights(matches),
        CommandName::Help => read_help(matches),
        CommandName::Version => read_version(matches),
    }
}

/// The number that an option says.
fn read_number(matches: &ArgMatches<'_>, name: OptionName, range: NumberRange) -> Option<u64>
    ensures { result ≡ number_said range (kept_text (kept_in matches.now (Sought.Arguments name)) 0) }
{
    number_said(range, kept_text(matches, Sought::Arguments(name), 0))
}

/// The number that `--limit` says.
fn read_limit(matches: &ArgMatches<'_>) -> Option<u32>
    ensures { result ≡ number_said limit_range (kept_text (kept_in matches.now (Sought.Arguments OptionName.Limit)) 0) }
{
    let limit = read_number(matches, OptionName::Limit, LIMIT)?;
    Some(limit as u32)
}

#[tactic(auto, unfolding(crate::specs::parser::Asked::command_said))]
fn read_serve<'a>(matches: &ArgMatches<'a>) -> Option<Command<'a>>
    ensures { option_map view result ≡ kept_said CommandName.Serve (kept_in matches.now) }
{
    let data = kept_text(matches, Sought::Operands, 0)?;
    let address = kept_text(matches, Sought::Operands, 1)?;
    let address = address_of(address)?;
    Some(Command::Serve(Serving {
        data,
        address,
        sessions: read_number(matches, OptionName::Sessions, SESSIONS)?,
        turns: read_number(matches, OptionName::Turns, TURNS)?,
        queues: read_number(matches, OptionName::Queues, QUEUES)?,
        idle: read_number(matches, OptionName::Idle, IDLE)?,
        limit: read_limit(matches)?,
        changes: kept_text(matches, Sought::Arguments(OptionName::Changes), 0),
    }))
}

#[tactic(auto, unfolding(crate::specs::parser::Asked::command_said))]
fn read_replay<'a>(matches: &ArgMatches<'a>) -> Option<Command<'a>>
    ensures { option_map view result ≡ kept_said CommandName.Replay (kept_in matches.now) }
{
    let data = kept_text(matches, Sought::Operands, 0)?;
    let script = kept_text(matches, Sought::Operands, 1)?;
    let turns = read_number(matches, OptionName::Turns, TURNS)?;
    let dump = is_set(matches, OptionName::Dump);
    Some(Command::Replay(Replaying {
        data,
        script,
        turns,
        dump,
    }))
}

#[tactic(auto, unfolding(crate::specs::parser::Asked::command_said))]
fn read_check<'a>(matches: &ArgMatches<'a>) -> Option<Command<'a>>
    ensures { option_map view result ≡ kept_said CommandName.Check (kept_in matches.now) }
{
    let data = kept_text(matches, Sought::Operands, 0)?;
    let changes = kept_text(matches, Sought::Arguments(OptionName::Changes), 0);
    if is_set(matches, OptionName::Why) {
        match changes {
            Some(_) => None,
            None => Some(Command::Why { data }),
        }
    } else {
        Some(Command::Check(Loading { data, changes }))
    }
}

#[tactic(auto, unfolding(crate::specs::parser::Asked::command_said))]
fn read_dump<'a>(matches: &ArgMatches<'a>) -> Option<Command<'a>>
    ensures { option_map view result ≡ kept_said CommandName.Dump (kept_in matches.now) }
{
    let data = kept_text(matches, Sought::Operands, 0)?;
    let changes = kept_text(matches, Sought::Arguments(OptionName::Changes), 0);
    Some(Command::Dump(Loading { data, changes }))
}

#[tactic(auto, unfolding(crate::specs::parser::Asked::command_said))]
fn read_explain<'a>(matches: &ArgMatches<'a>) -> Option<Command<'a>>
    ensures { option_map view result ≡ kept_said CommandName.Explain (kept_in matches.now) }
{
    let data = kept_text(matches, Sought::Operands, 0)?;
    let who = kept_text(matches, Sought::Operands, 1)?;
    let target = kept_text(matches, Sought::Operands, 2)?;
    let item = kept_text(matches, Sought::Operands, 3)?;
    let permission = kept_text(matches, Sought::Operands, 4)?;
    Some(Command::Explain(Deciding {
        data,
        who,
        target,
        item,
        permission,
    }))
}

#[tactic(auto, unfolding(crate::specs::parser::Asked::command_said))]
fn read_sample<'a>(matches: &ArgMatches<'a>) -> Option<Command<'a>>
    ensures { option_map view result ≡ kept_said CommandName.Sample (kept_in matches.now) }
{
    let count = kept_text(matches, Sought::Operands, 0)?;
    let count = number_within(20, 1, 20_000, count)?;
    Some(Command::Sample { count })
}

#[tactic(auto, unfolding(crate::specs::parser::Asked::command_said))]
fn read_ask<'a>(matches: &ArgMatches<'a>) -> Option<Command<'a>>
    ensures { option_map view result ≡ kept_said CommandName.Ask (kept_in matches.now) }
{
    let data = kept_text(matches, Sought::Operands, 0)?;
    let requests = kept_text(matches, Sought::Operands, 1)?;
    let script = is_set(matches, OptionName::Script);
    Some(Command::Ask(Asking {
        data,
        requests,
        script,
    }))
}

#[tactic(auto, unfolding(crate::specs::parser::Asked::command_said))]
fn read_prove<'a>(matches: &ArgMatches<'a>) -> Option<Command<'a>>
    ensures { option_map view result ≡ kept_said CommandName.Prove (kept_in matches.now) }
{
    let data = kept_text(matches, Sought::Operands, 0)?;
    let who = kept_text(matches, Sought::Operands, 1)?;
    let target = kept_text(matches, Sought::Operands, 2)?;
    let item = kept_text(matches, Sought::Operands, 3)?;
    let permission = kept_text(matches, Sought::Operands, 4)?;
    Some(Command::Prove(Deciding {
        data,
        who,
        target,
        item,
        permission,
    }))
}

#[tactic(auto, unfolding(crate::specs::parser::Asked::command_said))]
fn read_verify<'a>(matches: &ArgMatches<'a>) -> Option<Command<'a>>
    ensures { option_map view result ≡ kept_said CommandName.Verify (kept_in matches.now) }
{
    let data = kept_text(matches, Sought::Operands, 0)?;
    let certificate = kept_text(matches, Sought::Operands, 1)?;
    Some(Command::Verify(Verifying { data, certificate }))
}

#[tactic(auto, unfolding(crate::specs::parser::Asked::command_said))]
fn read_rights<'a>(matches: &ArgMatches<'a>) -> Option<Command<'a>>
    ensures { option_map view result ≡ kept_said CommandName.Rights (kept_in matches.now) }
{
    let data = kept_text(matches, Sought::Operands, 0)?;
    let who = kept_text(matches, Sought::Operands, 1)?;
    let target = kept_text(matches, Sought::Operands, 2)?;
    Some(Command::Rights(RightsAsked { data, who, target }))
}

#[tactic(auto, unfolding(crate::specs::parser::Asked::command_said))]
fn read_help<'a>(_matches: &ArgMatches<'a>) -> Option<Command<'a>>
    ensures { option_map view result ≡ kept_said CommandName.Help (kept_in _matches.now) }
{
    Some(Command::Help)
}

#[tactic(auto, unfolding(crate::specs::parser::Asked::command_said))]
fn read_version<'a>(_matches: &ArgMatches<'a>) -> Option<Command<'a>>
    ensures { option_map view result ≡ kept_said CommandName.Version (kept_in _matches.now) }
{
    Some(Command::Version)
}
