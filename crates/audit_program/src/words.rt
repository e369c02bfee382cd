//! The words of the program.

ghost use Rattle.std.specs.Prelude.{◌≡◌, ◌∷◌, ◌≤◌, [], ℕ, map, length, option_map, string_bytes, Some, IfOk, IfSome};
ghost use Rattle.std.specs.Char.{is_ascii_digit};
ghost use Rattle.std.specs.List.{AllPass, list_all};
ghost use Rattle.std.specs.Str.Parse.{digits_value};
ghost use Rattle.command_files.specs.dn_names.name.Names.{RdnSequence};
ghost use Rattle.command_files.specs.script_text.LineText.{IsNumber};
ghost use Rattle.audit_program.specs.Words.{AuditView, IsAsked, IsSubtree, view};

use command_files::dir_tree::NoMemory;
use command_files::dn_names::Dn;
use hush_laws::op_read::directory::read_named;
use std::alloc::Global;

/// What an audit is asked for.
#[derive(Debug, Drop)]
pub struct Asked<'a> {
    /// The name of the data file.
    pub data: &'a str,
    /// The name of the script.
    pub script: &'a str,
    /// The number of the connection that is audited, from 1 on.
    pub number: u32,
    /// The name of the subtree, which isn't that of the root.
    pub top: Dn,
}

/// The audit that the words after the program's name ask for; None exactly where they ask for none. They are four: the names
/// of the data file and of the script, a connection's number as scripts have it, and a name (RFC 4514) that isn't empty.
/// There are no options. The error comes where memory is wanted.
pub fn read_words<'a>(alloc: Global, words: &'a [String]) -> Result<Option<Asked<'a>>, NoMemory>
    ensures found { IfOk result (λ read. IfSome read (λ asked. IsAsked (map string_bytes words.now) (view asked))) }
    ensures only { IfOk result (λ read. (asked : AuditView) → IsAsked (map string_bytes words.now) asked
        → option_map view read ≡ Some asked) }
{
    match words {
        [data, script, number, name] => read_four(
            alloc,
            data.as_str(),
            script.as_str(),
            number.as_str(),
            name.as_str(),
        ),
        _ => Ok(None),
    }
}

// The audit that four words ask for.
fn read_four<'a>(
    alloc: Global,
    data: &'a str,
    script: &'a str,
    number: &str,
    name: &str,
) -> Result<Option<Asked<'a>>, NoMemory>
    ensures found { IfOk result (λ read. IfSome read (λ asked.
        IsAsked («data».now ∷ script.now ∷ number.now ∷ name.now ∷ []) (view asked))) }
    ensures only { IfOk result (λ read. (asked : AuditView)
        → IsAsked («data».now ∷ script.now ∷ number.now ∷ name.now ∷ []) asked → option_map view read ≡ Some asked) }
{
    let Some(number) = connection_number(number) else {
        return Ok(None);
    };
    let Some(top) = subtree(alloc, name)? else {
        return Ok(None);
    };
    Ok(Some(Asked {
        data,
        script,
        number,
        top,
    }))
}

// The name of a subtree, which isn't that of the root.
fn subtree(alloc: Global, word: &str) -> Result<Option<Dn>, NoMemory>
    ensures found { IfOk result (λ name. IfSome name (λ top. IsSubtree word.now top)) }
    ensures only { IfOk result (λ name. (top : RdnSequence) → IsSubtree word.now top → name ≡ Some top) }
{
    let Some(name) = read_named(alloc, word.as_bytes())? else {
        return Ok(None);
    };
    if name.len() == 0 {
        return Ok(None);
    }
    Ok(Some(name))
}

// The number of a connection.
fn connection_number(word: &str) -> Option<u32>
    ensures found { IfSome result (λ number. IsNumber word.now number) }
    ensures only { (number : ℕ) → IsNumber word.now number → result ≡ Some number }
{
    if word.len() > 10 || !all_digits(word) {
        return None;
    }
    let number = word.parse::<u32>().ok()?;
    if number == 0 {
        return None;
    }
    Some(number)
}

fn all_digits(word: &str) -> bool
    ensures { result ≡ list_all is_ascii_digit word.now }
{
    word.bytes().all(|octet| octet.is_ascii_digit())
}
