//! Words of the command line, and what they ask for.

use command_words::{Command, Deciding, Loading, Serving, read_words};
use std::alloc::{AllocError, Global};
use std::test::*;

// The words of a line, with one space between two words.
fn words_of(alloc: Global, line: &str) -> Result<Vec<String>, AllocError> {
    let mut words = Vec::new(alloc);
    for word in line.split(' ') {
        words.push(String::from_str(alloc, word)?)?;
    }
    Ok(words)
}

// What serving is asked for: its texts, the numbers of connections and turns, those of the other options where they are not
// as they are without these, and the file of changes, if it has one.
fn serving_text(alloc: Global, serving: Serving<'_>) -> Result<String, AllocError> {
    let Serving {
        data,
        address,
        sessions,
        turns,
        queues,
        idle,
        limit,
        changes,
    } = serving;
    let changes = match changes {
        Some(changes) => format!(in alloc; " [{changes}]")?,
        None => String::new(alloc),
    };
    if queues == 256 && idle == 0 && limit == 0 {
        format!(in alloc; "serve [{data}] [{address}] {sessions} {turns}{changes}")
    } else {
        format!(in alloc;
            "serve [{data}] [{address}] {sessions} {turns} {queues} {idle} {limit}{changes}",
        )
    }
}

// A command of a data file, with its file of changes, if it has one.
fn loading_text(alloc: Global, command: &str, loading: Loading<'_>) -> Result<String, AllocError> {
    let data = loading.data;
    match loading.changes {
        Some(changes) => format!(in alloc; "{command} [{data}] [{changes}]"),
        None => format!(in alloc; "{command} [{data}]"),
    }
}

// A command of one decision.
fn deciding_text(
    alloc: Global,
    command: &str,
    deciding: Deciding<'_>,
) -> Result<String, AllocError> {
    let Deciding {
        data,
        who,
        target,
        item,
        permission,
    } = deciding;
    format!(in alloc; "{command} [{data}] [{who}] [{target}] [{item}] [{permission}]")
}

// What words ask for, in one line: each text between brackets.
fn answer(alloc: Global, words: &[String]) -> Result<String, AllocError> {
    match read_words(alloc, words)? {
        Some(Command::Serve(serving)) => serving_text(alloc, serving),
        Some(Command::Replay(asked)) => format!(in alloc;
            "[{}] [{}] {}{}",
            asked.data,
            asked.script,
            asked.turns,
            if asked.dump { " dump" } else { "" }
        ),
        Some(Command::Check(loading)) => loading_text(alloc, "check", loading),
        Some(Command::Why { data }) => format!(in alloc; "why [{data}]"),
        Some(Command::Dump(loading)) => loading_text(alloc, "dump", loading),
        Some(Command::Explain(deciding)) => deciding_text(alloc, "explain", deciding),
        Some(Command::Sample { count }) => format!(in alloc; "sample {count}"),
        Some(Command::Ask(asked)) => format!(in alloc;
            "ask [{}] [{}]{}",
            asked.data,
            asked.requests,
            if asked.script { " script" } else { "" }
        ),
        Some(Command::Prove(deciding)) => deciding_text(alloc, "prove", deciding),
        Some(Command::Verify(asked)) => {
            format!(in alloc; "verify [{}] [{}]", asked.data, asked.certificate)
        }
        Some(Command::Rights(asked)) => {
            format!(in alloc;
                "rights [{}] [{}] [{}]",
                asked.data, asked.who, asked.target
            )
        }
        Some(Command::Help) => String::from_str(alloc, "help"),
        Some(Command::Version) => String::from_str(alloc, "version"),
        None => String::from_str(alloc, "usage"),
    }
}

// What the words of a line ask for.
fn asked(alloc: Global, line: &str) -> Result<String, AllocError> {
    let words = words_of(alloc, line)?;
    answer(alloc, words.as_slice())
}

static READ: [(&str, &str); 105] = [
    // a replay
    ("replay d s", "[d] [s] 1000000000000"),
    ("replay d s --turns 5", "[d] [s] 5"),
    ("replay d s --turns=5", "[d] [s] 5"),
    ("replay --turns 5 d s", "[d] [s] 5"),
    ("replay --turns=5 d s", "[d] [s] 5"),
    ("replay d --turns 5 s", "[d] [s] 5"),
    ("replay d --turns=5 s", "[d] [s] 5"),
    ("replay d s --turns 0", "[d] [s] 0"),
    ("replay d s --turns 007", "[d] [s] 7"),
    (
        "replay d s --turns=18446744073709551615",
        "[d] [s] 18446744073709551615",
    ),
    ("replay d s --turns=00000000000000000001", "[d] [s] 1"),
    ("replay -- d s", "[d] [s] 1000000000000"),
    ("replay d -- s", "[d] [s] 1000000000000"),
    ("replay d s --", "[d] [s] 1000000000000"),
    ("replay --turns 5 -- d s", "[d] [s] 5"),
    ("replay -- -d --turns", "[-d] [--turns] 1000000000000"),
    ("replay --turns=5 -- --turns=6 -", "[--turns=6] [-] 5"),
    ("replay -- -- --", "[--] [--] 1000000000000"),
    ("replay - -", "[-] [-] 1000000000000"),
    ("replay  s", "[] [s] 1000000000000"),
    (
        "replay replay d=--turns",
        "[replay] [d=--turns] 1000000000000",
    ),
    (
        "replay caf\u{e9} \u{20ac}",
        "[caf\u{e9}] [\u{20ac}] 1000000000000",
    ),
    ("replay turns --turns 3 3", "[turns] [3] 3"),
    // a dump after a replay, in any place
    ("replay --dump d s", "[d] [s] 1000000000000 dump"),
    ("replay d --dump s", "[d] [s] 1000000000000 dump"),
    ("replay d s --dump", "[d] [s] 1000000000000 dump"),
    ("replay --dump -- d s", "[d] [s] 1000000000000 dump"),
    ("replay d s --dump --", "[d] [s] 1000000000000 dump"),
    ("replay d s --dump --turns 5", "[d] [s] 5 dump"),
    ("replay d s --turns 5 --dump", "[d] [s] 5 dump"),
    ("replay --dump d --turns=5 s", "[d] [s] 5 dump"),
    ("replay --turns 5 --dump 5 s", "[5] [s] 5 dump"),
    ("replay --dump true s", "[true] [s] 1000000000000 dump"),
    ("replay --dump - -", "[-] [-] 1000000000000 dump"),
    (
        "replay --dump -- --dump s",
        "[--dump] [s] 1000000000000 dump",
    ),
    ("replay -- --dump s", "[--dump] [s] 1000000000000"),
    ("replay d -- --dump", "[d] [--dump] 1000000000000"),
    ("replay dump s", "[dump] [s] 1000000000000"),
    // a check and a dump of one file
    ("check d", "check [d]"),
    ("check -- d", "check [d]"),
    ("check d --", "check [d]"),
    ("check -- -d", "check [-d]"),
    ("check -- --", "check [--]"),
    ("check -", "check [-]"),
    ("check ", "check []"),
    ("check check", "check [check]"),
    ("check caf\u{e9}", "check [caf\u{e9}]"),
    ("check d --changes c", "check [d] [c]"),
    ("check --changes=c d", "check [d] [c]"),
    ("check d --changes=", "check [d] []"),
    ("check d --changes -", "check [d] [-]"),
    ("check d --changes=-c", "check [d] [-c]"),
    ("check d --why", "why [d]"),
    ("check --why d", "why [d]"),
    ("check --why -- -d", "why [-d]"),
    ("dump d --changes c", "dump [d] [c]"),
    ("dump --changes=c -- d", "dump [d] [c]"),
    ("dump d", "dump [d]"),
    ("dump -- d", "dump [d]"),
    ("dump d --", "dump [d]"),
    ("dump -- --dump", "dump [--dump]"),
    ("dump -- --", "dump [--]"),
    ("dump -", "dump [-]"),
    ("dump ", "dump []"),
    ("dump dump", "dump [dump]"),
    ("dump \u{20ac}", "dump [\u{20ac}]"),
    // a server, with its connections and turns in any place
    (
        "serve d 127.0.0.1:389",
        "serve [d] [127.0.0.1:389] 0 1000000000000",
    ),
    (
        "serve d 127.0.0.1:1",
        "serve [d] [127.0.0.1:1] 0 1000000000000",
    ),
    (
        "serve d 127.0.0.1:65535",
        "serve [d] [127.0.0.1:65535] 0 1000000000000",
    ),
    (
        "serve d 127.0.0.1:00389",
        "serve [d] [127.0.0.1:00389] 0 1000000000000",
    ),
    (
        "serve d 127.0.0.1:389 --sessions=3",
        "serve [d] [127.0.0.1:389] 3 1000000000000",
    ),
    (
        "serve --sessions 3 d 127.0.0.1:389",
        "serve [d] [127.0.0.1:389] 3 1000000000000",
    ),
    (
        "serve d --turns 5 127.0.0.1:389",
        "serve [d] [127.0.0.1:389] 0 5",
    ),
    (
        "serve d 127.0.0.1:389 --turns=5 --sessions=18446744073709551615",
        "serve [d] [127.0.0.1:389] 18446744073709551615 5",
    ),
    (
        "serve --sessions 0 --turns 0 -- -d 127.0.0.1:389",
        "serve [-d] [127.0.0.1:389] 0 0",
    ),
    // with how much its queues may have, when a silent connection ends and how many entries a search is given
    (
        "serve d 127.0.0.1:389 --queues 256 --idle=1 --limit=1",
        "serve [d] [127.0.0.1:389] 0 1000000000000 256 1 1",
    ),
    (
        "serve d 127.0.0.1:389 --queues=256",
        "serve [d] [127.0.0.1:389] 0 1000000000000",
    ),
    (
        "serve d 127.0.0.1:389 --queues 1",
        "serve [d] [127.0.0.1:389] 0 1000000000000 1 0 0",
    ),
    (
        "serve --queues=65536 d 127.0.0.1:389",
        "serve [d] [127.0.0.1:389] 0 1000000000000 65536 0 0",
    ),
    (
        "serve d --idle 60 127.0.0.1:389",
        "serve [d] [127.0.0.1:389] 0 1000000000000 256 60 0",
    ),
    (
        "serve d 127.0.0.1:389 --idle=4294967295",
        "serve [d] [127.0.0.1:389] 0 1000000000000 256 4294967295 0",
    ),
    (
        "serve d 127.0.0.1:389 --limit 2",
        "serve [d] [127.0.0.1:389] 0 1000000000000 256 0 2",
    ),
    (
        "serve d 127.0.0.1:389 --limit=2147483647",
        "serve [d] [127.0.0.1:389] 0 1000000000000 256 0 2147483647",
    ),
    (
        "serve d 127.0.0.1:389 --limit=00000000000000000002",
        "serve [d] [127.0.0.1:389] 0 1000000000000 256 0 2",
    ),
    (
        "serve --limit 3 --idle 4 --queues 5 --turns 6 --sessions 7 d 127.0.0.1:389",
        "serve [d] [127.0.0.1:389] 7 6 5 4 3",
    ),
    // with a file of changes
    (
        "serve d 127.0.0.1:389 --changes c",
        "serve [d] [127.0.0.1:389] 0 1000000000000 [c]",
    ),
    (
        "serve --changes=-c d --idle=60 127.0.0.1:389",
        "serve [d] [127.0.0.1:389] 0 1000000000000 256 60 0 [-c]",
    ),
    (
        "serve d 127.0.0.1:389 --changes=",
        "serve [d] [127.0.0.1:389] 0 1000000000000 []",
    ),
    // one decision, with its texts as they stand
    (
        "explain d anonymous dc=example entry Read",
        "explain [d] [anonymous] [dc=example] [entry] [Read]",
    ),
    (
        "explain d uid=bob,dc=example dc=example value:description=a=b Compare",
        "explain [d] [uid=bob,dc=example] [dc=example] [value:description=a=b] [Compare]",
    ),
    ("explain d    ", "explain [d] [] [] [] []"),
    (
        "explain -- -1 -2 -3 -4 -5",
        "explain [-1] [-2] [-3] [-4] [-5]",
    ),
    // a sample
    ("sample 4", "sample 4"),
    ("sample 1", "sample 1"),
    ("sample 20000", "sample 20000"),
    ("sample -- 4", "sample 4"),
    ("sample 00000000000000000004", "sample 4"),
    // requests that are asked
    ("ask d r", "ask [d] [r]"),
    ("ask --script d r", "ask [d] [r] script"),
    ("ask d r --script", "ask [d] [r] script"),
    ("ask d -- --script", "ask [d] [--script]"),
    // a certificate, and rights
    (
        "prove d anonymous dc=example entry Read",
        "prove [d] [anonymous] [dc=example] [entry] [Read]",
    ),
    ("verify d c", "verify [d] [c]"),
    ("verify d -", "verify [d] [-]"),
    (
        "rights d anonymous dc=example",
        "rights [d] [anonymous] [dc=example]",
    ),
];

#[test]
fn each_way_of_writing_a_command_is_read(rt: HostRuntime) -> Result<(), Fail> {
    for (line, want) in &READ {
        let got = asked(rt.alloc(), *line)?;
        assert_eq!(rt; got.as_str(), *want, "{line}");
    }
    Ok(())
}

static REFUSED: [&str; 227] = [
    // a file of changes
    "check d --changes",
    "check d --changes -c",
    "check d --changes --why",
    "check d --changes c --changes c",
    "serve d 127.0.0.1:389 --changes",
    "serve d --changes 127.0.0.1:389",
    "serve d 127.0.0.1:389 --changes --idle=60",
    "serve d 127.0.0.1:389 --changes c --changes=c",
    "check d --why --changes c",
    "check d --why --why",
    "check d --why=yes",
    "dump d --why",
    "replay d s --changes c",
    "explain d anonymous dc=example entry Read --changes c",
    // other words
    "",
    "Replay d s",
    "replay2 d s",
    "Check d",
    "checks d",
    "chec d",
    "DUMP d",
    "dumps d",
    "--dump d",
    "--check d",
    "Serve d 127.0.0.1:389",
    "serves d 127.0.0.1:389",
    "EXPLAIN d anonymous dc=example entry Read",
    "explains d anonymous dc=example entry Read",
    "Sample 4",
    "samples 4",
    "-- replay d s",
    "-- check d",
    "-- dump d",
    "--turns 5 replay d s",
    "--dump replay d s",
    "replay",
    "replay d",
    "replay d s t",
    "replay d s ",
    "replay -- d",
    "replay d -- s --turns 5",
    "replay d -- s --dump",
    "replay --dump d",
    "replay --dump d s t",
    "check",
    "check --",
    "check d s",
    "check d ",
    "check d -- s",
    "check -- d --",
    "dump",
    "dump --",
    "dump d s",
    "dump d ",
    "dump d -- s",
    "dump -- d --",
    "serve",
    "serve d",
    "serve 127.0.0.1:389",
    "serve 127.0.0.1:389 d",
    "serve d 127.0.0.1:389 s",
    "serve d 127.0.0.1:389 ",
    "explain",
    "explain d anonymous dc=example entry",
    "explain d anonymous dc=example entry Read Read",
    "explain d anonymous dc=example entry Read ",
    "sample",
    "sample 4 4",
    "ask",
    "ask d",
    "ask d r x",
    "prove d anonymous dc=example entry",
    "verify d",
    "verify d c x",
    "rights d anonymous",
    "rights d anonymous dc=example entry",
    // what is no address
    "serve d 127.0.0.1",
    "serve d 127.0.0.1:",
    "serve d 127.0.0.1:0",
    "serve d 127.0.0.1:00000",
    "serve d 127.0.0.1:65536",
    "serve d 127.0.0.1:99999",
    "serve d 127.0.0.1:000389",
    "serve d 127.0.0.1:100000",
    "serve d 127.0.0.1:-1",
    "serve d 127.0.0.1:+1",
    "serve d 127.0.0.1:1x",
    "serve d 127.0.0.1::1",
    "serve d 127.0.0.1:\u{661}",
    "serve d 127.0.0.2:389",
    "serve d 0.0.0.0:389",
    "serve d 127.0.0.01:389",
    "serve d localhost:389",
    "serve d [::1]:389",
    "serve d :389",
    "serve d 389",
    "serve d x127.0.0.1:389",
    // what is no count of a sample
    "sample 0",
    "sample 20001",
    "sample -4",
    "sample -- -4",
    "sample +4",
    "sample 4x",
    "sample four",
    "sample ",
    "sample 000000000000000000004",
    "sample 18446744073709551620",
    // what is no option of the command
    "replay d s -h",
    "replay d s --help",
    "replay d s --version",
    "replay d s --sessions 5",
    "replay d s -turns 5",
    "replay d s -turns=5",
    "replay d s --turn 5",
    "replay d s --turnss 5",
    "replay d s --Turns 5",
    "replay d s --=5",
    "replay d s ---",
    "replay -d s",
    "replay d s --turns",
    "replay d s --turns -",
    "replay d s --turns --",
    "replay d s --turns -- 5",
    "replay d s --turns 5 --turns 5",
    "replay d s --turns=5 --turns=6",
    "replay --turns 5 d s --turns=5",
    "replay d s -dump",
    "replay d s --dum",
    "replay d s --dumps",
    "replay d s --Dump",
    "replay d s --check",
    "check d -h",
    "check d --help",
    "check d --dump",
    "check --dump d",
    "check d --turns 5",
    "check d --turns=5",
    "check -d",
    "dump d --help",
    "dump d --version",
    "dump d --dump",
    "dump --dump d",
    "dump d --turns 5",
    "dump d --turns=5",
    "dump -d",
    "serve d 127.0.0.1:389 --dump",
    "serve d 127.0.0.1:389 --help",
    "serve d 127.0.0.1:389 --session 3",
    "serve d 127.0.0.1:389 --sessions",
    "serve d 127.0.0.1:389 --sessions=",
    "serve d 127.0.0.1:389 --sessions -1",
    "serve d 127.0.0.1:389 --sessions=x",
    "serve d 127.0.0.1:389 --sessions=18446744073709551616",
    "serve d 127.0.0.1:389 --sessions 3 --sessions 3",
    "serve d 127.0.0.1:389 --turns 5 --turns=5",
    "serve d 127.0.0.1:389 --sessions --turns",
    "serve -d 127.0.0.1:389",
    "serve d 127.0.0.1:389 --queues",
    "serve d 127.0.0.1:389 --queues=",
    "serve d 127.0.0.1:389 --queues=0",
    "serve d 127.0.0.1:389 --queues 65537",
    "serve d 127.0.0.1:389 --queues -1",
    "serve d 127.0.0.1:389 --queues=1M",
    "serve d 127.0.0.1:389 --queues=18446744073709551616",
    "serve d 127.0.0.1:389 --queues 1 --queues=1",
    "serve d 127.0.0.1:389 --queue 1",
    "serve d 127.0.0.1:389 --idle",
    "serve d 127.0.0.1:389 --idle 0",
    "serve d 127.0.0.1:389 --idle=4294967296",
    "serve d 127.0.0.1:389 --idle=60s",
    "serve d 127.0.0.1:389 --idle 1 --idle 1",
    "serve d 127.0.0.1:389 --limit",
    "serve d 127.0.0.1:389 --limit=0",
    "serve d 127.0.0.1:389 --limit 2147483648",
    "serve d 127.0.0.1:389 --limit=000000000000000000002",
    "serve d 127.0.0.1:389 --limit 2 --limit=2",
    "serve d 127.0.0.1:389 --queues --limit",
    "replay d s --queues 1",
    "replay d s --idle=1",
    "replay d s --limit 1",
    "check d --sessions 3",
    "dump d --sessions=3",
    "explain d anonymous dc=example entry Read --turns 5",
    "explain d anonymous dc=example entry --dump Read",
    "explain d -anonymous dc=example entry Read",
    "sample 4 --turns 5",
    "sample --sessions=3 4",
    "sample --count 4",
    "ask d r --script=1",
    "ask d r --script --script",
    "ask d r --dump",
    "prove d anonymous dc=example entry Read --script",
    "verify d c --script",
    "rights d anonymous dc=example --turns 5",
    // a dump with a value, or given twice
    "replay d s --dump=",
    "replay d s --dump=x",
    "replay d s --dump=1",
    "replay d s --dump=true",
    "replay d s --dump==",
    "replay --dump=d s",
    "replay --dump=d d s",
    "replay d s --dump x",
    "replay d s --turns=5 --dump=5",
    "replay d s --dump --dump",
    "replay --dump d s --dump",
    "replay --dump d --dump s",
    "replay --dump --turns 5 d s --dump",
    "replay d s --dump --dump=x",
    "replay d s --dump --dump --dump",
    "replay d s --turns --dump",
    "replay d s --turns --dump 5",
    // what is no number of turns
    "replay d s --turns=",
    "replay d s --turns ",
    "replay d s --turns=-1",
    "replay d s --turns -1",
    "replay d s --turns=+1",
    "replay d s --turns +1",
    "replay d s --turns=1x",
    "replay d s --turns 0x1",
    "replay d s --turns 1.0",
    "replay d s --turns 1_000",
    "replay d s --turns=1=1",
    "replay d s --turns \u{661}",
    "replay d s --turns=18446744073709551616",
    "replay d s --turns 99999999999999999999",
    "replay d s --turns 000000000000000000001",
    "replay d s --dump --turns=x",
];

#[test]
fn all_other_words_ask_for_nothing(rt: HostRuntime) -> Result<(), Fail> {
    for line in &REFUSED {
        let got = asked(rt.alloc(), *line)?;
        assert_eq!(rt; got.as_str(), "usage", "{line}");
    }
    let none = answer(rt.alloc(), &[])?;
    assert_eq!(rt; none.as_str(), "usage", "no words");
    Ok(())
}
