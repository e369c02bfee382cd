//! The parser of a command's words, and what it keeps of them.

ghost use Rattle.std.specs.Prelude.{◌≡◌, IfOk, false, map, option_map, option_copied, string_bytes};
ghost use Rattle.clap.specs.Walk.{rule_of};
ghost use Rattle.clap.specs.Simple.{app_of};
ghost use Rattle.command_words.specs.parser.Parser.{operand_rule, option_rule, app_for, kept_in, kept_text, is_set};
ghost use Rattle.command_words.specs.parser.Asked.{Parses, kept_count};
ghost use Rattle.command_words.specs.Table.{row_of};

use crate::table::{CommandName, OptionName, Sought};
use clap::error::ErrorKind;
use clap::{Arg, ArgAction, ArgMatches, Command};
use std::alloc::{AllocError, Global};

/// One argument that takes all operands.
fn operand_arg<'a>(alloc: Global) -> Arg<'a>
    ensures rule { rule_of result ≡ operand_rule }
    ensures local { result.global ≡ false }
{
    Arg::new(alloc, "operands").action(ArgAction::Append)
}

/// An option with its value, or a flag.
fn option_arg<'a>(alloc: Global, name: OptionName) -> Arg<'a>
    ensures rule { rule_of result ≡ option_rule name }
    ensures local { result.global ≡ false }
{
    let word: &'a str = name.word();
    let option = Arg::new(alloc, word).long(word);
    if name.takes_argument() {
        option
    } else {
        option.action(ArgAction::SetTrue)
    }
}

/// The parser of what stands after a command's name.
fn parser<'a>(alloc: Global, command: CommandName) -> Result<Command<'a>, AllocError>
    ensures { IfOk result (λ parser. app_of parser ≡ app_for (row_of command)) }
{
    let word: &'a str = command.word();
    let mut parser = Command::new(alloc, word)
        .no_binary_name(true)
        .disable_help_flag(true)
        .arg(operand_arg(alloc))?;
    for option in command.options() {
        parser = parser.arg(option_arg(alloc, *option))?;
    }
    Ok(parser)
}

/// The matches of the words after a command's name, or `None` where they are no line of it.
pub fn parse<'a>(
    alloc: Global,
    command: CommandName,
    words: &'a [String],
) -> Result<Option<ArgMatches<'a>>, AllocError>
    ensures { IfOk result (Parses command (map string_bytes words.now)) }
{
    match parser(alloc, command)?.try_get_matches_from(words) {
        Ok(matches) => Ok(Some(matches)),
        Err(error) => match error.kind() {
            ErrorKind::OutOfMemory => Err(AllocError),
            _ => Ok(None),
        },
    }
}

/// What the matches keep of what is sought.
fn kept<'m, 'a>(matches: &'m ArgMatches<'a>, sought: Sought) -> Option<&'m [&'a str]>
    ensures { option_map (λ texts. map (λ text. text.now) texts.now) result ≡ kept_in matches.now sought }
{
    match sought {
        Sought::Operands => matches.get_raw("operands"),
        Sought::Arguments(name) => matches.get_raw(name.word()),
    }
}

/// How many texts the matches keep.
pub fn kept_count(matches: &ArgMatches<'_>, sought: Sought) -> usize
    ensures { result ≡ kept_count (kept_in matches.now sought) }
{
    match kept(matches, sought) {
        Some(texts) => texts.len(),
        None => 0,
    }
}

/// A kept text, by its index.
pub fn kept_text<'a>(matches: &ArgMatches<'a>, sought: Sought, index: usize) -> Option<&'a str>
    ensures { option_copied result ≡ kept_text (kept_in matches.now sought) index }
{
    kept(matches, sought)?.get(index).copied()
}

/// Whether a flag is given.
pub fn is_set(matches: &ArgMatches<'_>, flag: OptionName) -> bool
    ensures { result ≡ is_set (kept_text (kept_in matches.now (Sought.Arguments flag)) 0) }
{
    match kept_text(matches, Sought::Arguments(flag), 0) {
        Some(text) => text == "true",
        None => false,
    }
}
