//! The lines of a certificate, put one behind the other.

ghost use Rattle.std.specs.Prelude.{◌≡◌, ◌++◌, ◌∷◌, [], OnOk, map};
ghost use Rattle.certify.specs.Lines.{before, line_of, whole};

use dir_tree::NoMemory;
use dir_tree::dn_names::Dn;

/// A line of a certificate.
#[derive(Drop)]
pub(crate) struct Line {
    /// Its octets, or those up to the name with which it ends. LF is not among them.
    pub text: Vec<u8>,
    pub name: Option<Dn>,
}

/// Puts a line without a name at the end.
pub(crate) fn put_whole(text: Vec<u8>, lines: &mut Vec<Line>) -> Result<(), NoMemory>
    ensures ok { OnOk result (map line_of lines.new.items ≡ map line_of lines.old.items ++ whole text.items ∷ []) }
{
    lines.push(Line { text, name: None })?;
    Ok(())
}

/// Puts a line of a text at the end.
pub(crate) fn put_text(text: &str, lines: &mut Vec<Line>) -> Result<(), NoMemory>
    ensures ok { OnOk result (map line_of lines.new.items ≡ map line_of lines.old.items ++ whole text.now ∷ []) }
{
    let text = Vec::from_slice(*lines.allocator(), text.as_bytes())?;
    put_whole(text, lines)
}

/// Puts a line of a word and a name at the end.
pub(crate) fn put_before(word: &str, name: &Dn, lines: &mut Vec<Line>) -> Result<(), NoMemory>
    ensures ok { OnOk result
        (map line_of lines.new.items ≡ map line_of lines.old.items ++ before word.now name.now ∷ []) }
{
    let alloc = *lines.allocator();
    let text = Vec::from_slice(alloc, word.as_bytes())?;
    let name = Some(name.copy(alloc)?);
    lines.push(Line { text, name })?;
    Ok(())
}
