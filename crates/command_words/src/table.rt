//! The table of commands and options, and what a line is read for.

ghost use Rattle.std.specs.Prelude.{◌≡◌};
ghost use Rattle.command_words.specs.Table.{row_of, all_commands, command_named, option_word, takes_argument};

/// The commands of the program.
#[derive(Clone, Copy, Debug, Drop)]
pub enum CommandName {
    Serve,
    Replay,
    Check,
    Dump,
    Explain,
    Sample,
    Ask,
    Prove,
    Verify,
    Rights,
    Help,
    Version,
}

/// The options of the program's commands.
#[derive(Clone, Copy, Debug, Drop)]
pub enum OptionName {
    Sessions,
    Turns,
    Queues,
    Idle,
    Limit,
    Dump,
    Script,
    Changes,
    Why,
}

/// What a line is read for: its operands, or the arguments of an option.
#[derive(Clone, Copy, Debug, Drop)]
pub enum Sought {
    Operands,
    Arguments(OptionName),
}

impl CommandName {
    pub fn all() -> &'static [CommandName]
        ensures { result.now ≡ all_commands }
    {
        &[
            CommandName::Serve,
            CommandName::Replay,
            CommandName::Check,
            CommandName::Dump,
            CommandName::Explain,
            CommandName::Sample,
            CommandName::Ask,
            CommandName::Prove,
            CommandName::Verify,
            CommandName::Rights,
            CommandName::Help,
            CommandName::Version,
        ]
    }

    /// The command of this name.
    pub fn named(word: &str) -> Option<CommandName>
        ensures { result ≡ command_named word.now }
    {
        CommandName::all()
            .iter()
            .copied()
            .find(|command| word == command.word())
    }

    pub fn word(self) -> &'static str
        ensures { result.now ≡ (row_of self).name }
    {
        match self {
            CommandName::Serve => "serve",
            CommandName::Replay => "replay",
            CommandName::Check => "check",
            CommandName::Dump => "dump",
            CommandName::Explain => "explain",
            CommandName::Sample => "sample",
            CommandName::Ask => "ask",
            CommandName::Prove => "prove",
            CommandName::Verify => "verify",
            CommandName::Rights => "rights",
            CommandName::Help => "--help",
            CommandName::Version => "--version",
        }
    }

    pub fn operands(self) -> usize
        ensures { result ≡ (row_of self).operands }
    {
        match self {
            CommandName::Serve => 2,
            CommandName::Replay => 2,
            CommandName::Check => 1,
            CommandName::Dump => 1,
            CommandName::Explain => 5,
            CommandName::Sample => 1,
            CommandName::Ask => 2,
            CommandName::Prove => 5,
            CommandName::Verify => 2,
            CommandName::Rights => 3,
            CommandName::Help => 0,
            CommandName::Version => 0,
        }
    }

    pub fn options(self) -> &'static [OptionName]
        ensures { result.now ≡ (row_of self).options }
    {
        match self {
            CommandName::Serve => &[
                OptionName::Sessions,
                OptionName::Turns,
                OptionName::Queues,
                OptionName::Idle,
                OptionName::Limit,
                OptionName::Changes,
            ],
            CommandName::Replay => &[OptionName::Dump, OptionName::Turns],
            CommandName::Check => &[OptionName::Changes, OptionName::Why],
            CommandName::Dump => &[OptionName::Changes],
            CommandName::Explain => &[],
            CommandName::Sample => &[],
            CommandName::Ask => &[OptionName::Script],
            CommandName::Prove => &[],
            CommandName::Verify => &[],
            CommandName::Rights => &[],
            CommandName::Help => &[],
            CommandName::Version => &[],
        }
    }
}

impl OptionName {
    /// What follows the two dashes.
    pub fn word(self) -> &'static str
        ensures { result.now ≡ option_word self }
    {
        match self {
            OptionName::Sessions => "sessions",
            OptionName::Turns => "turns",
            OptionName::Queues => "queues",
            OptionName::Idle => "idle",
            OptionName::Limit => "limit",
            OptionName::Dump => "dump",
            OptionName::Script => "script",
            OptionName::Changes => "changes",
            OptionName::Why => "why",
        }
    }

    pub fn takes_argument(self) -> bool
        ensures { result ≡ takes_argument self }
    {
        match self {
            OptionName::Sessions => true,
            OptionName::Turns => true,
            OptionName::Queues => true,
            OptionName::Idle => true,
            OptionName::Limit => true,
            OptionName::Dump => false,
            OptionName::Script => false,
            OptionName::Changes => true,
            OptionName::Why => false,
        }
    }
}
