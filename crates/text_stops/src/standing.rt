//! What comes next in a text as it is read from its front.

ghost use Rattle.std.specs.Prelude.{◌≡◌, ◌&&◌, ◌∷◌, [], IfOk, map, reverse, option_map, if◌then◌else◌, Some, None};
ghost use Rattle.std.specs.Str.{is_utf8};
ghost use Rattle.text_stops.specs.Table.{row_of};
ghost use Rattle.text_stops.specs.declared.spots.Kind.TheVariants.{Word, Text};
ghost use Rattle.text_stops.specs.Standing.{at, level_of, turn_of, standing_of, after_word, after_field, opened, value, field, found_of, may_close, member_form, member_form_by, component, member_by, member, close, comma, behind, first, flagged, chosen, take, is_whole};

use crate::rows::{Part, Row, brace_rows, has_braces, has_text, is_needed, row_with};
use crate::spots::Kind;
use std::alloc::AllocError;
use std::str;

/// Braces that are open: the form of their value, and the rows of what may still come in them.
#[derive(Clone, Copy, Drop)]
pub(crate) struct Level {
    form: &'static str,
    rows: &'static [Row],
}

/// What comes next.
#[derive(Clone, Copy)]
pub(crate) enum Turn {
    /// A value of the form.
    Value(&'static str),
    /// What may stand behind an opening brace.
    First,
    /// What may stand behind a comma.
    Member,
    /// What may stand behind a value.
    Behind,
    /// NULL, or what may stand behind a value.
    Flagged,
    /// A colon, and a value of the form.
    Chosen(&'static str),
}

/// What comes next, and the braces that are open, the outermost first.
#[derive(Drop)]
pub(crate) struct Standing {
    pub(crate) turn: Turn,
    pub(crate) levels: Vec<Level>,
}

// Whether octets are UTF-8.
fn is_text(octets: &[u8]) -> bool
    ensures exact { result ≡ is_utf8 octets.now }
{
    match str::from_utf8(octets) {
        Ok(_) => true,
        Err(_) => false,
    }
}

// What comes behind the word of a row.
fn after_word(row: &Row) -> Turn
    ensures exact { turn_of result ≡ after_word (row_of row.now).part (row_of row.now).next }
{
    match row.part {
        Part::Choice => Turn::Chosen(row.next),
        _ => Turn::Behind,
    }
}

// What comes behind the identifier of a component.
fn after_field(row: &Row) -> Turn
    ensures exact { turn_of result ≡ after_field (row_of row.now).part (row_of row.now).next }
{
    match row.part {
        Part::Flag => Turn::Flagged,
        _ => Turn::Value(row.next),
    }
}

// An opening brace, with the rows of what may stand behind it.
fn opened(
    form: &'static str,
    rows: &'static [Row],
    levels: Vec<Level>,
) -> Result<Option<Standing>, AllocError>
    ensures ok { IfOk result (λ next. option_map standing_of next
        ≡ opened form.now (map row_of rows.now) (map level_of (reverse levels.items))) }
{
    if rows.is_empty() {
        return Ok(None);
    }
    let mut levels = levels;
    levels.push(Level { form, rows })?;
    Ok(Some(Standing {
        turn: Turn::First,
        levels,
    }))
}

// A word where a value of the form comes.
fn worded(word: &[u8], form: &'static str, levels: Vec<Level>) -> Option<Standing>
    ensures exact { option_map standing_of result ≡ value Word word.now form.now (map level_of (reverse levels.items)) }
{
    match row_with(form, word) {
        Some(row) => Some(Standing {
            turn: after_word(row),
            levels,
        }),
        None => None,
    }
}

// A string where a value of the form comes.
fn stringed(word: &[u8], form: &'static str, levels: Vec<Level>) -> Option<Standing>
    ensures exact { option_map standing_of result ≡ value Text word.now form.now (map level_of (reverse levels.items)) }
{
    if has_text(form) && is_text(word) {
        Some(Standing {
            turn: Turn::Behind,
            levels,
        })
    } else {
        None
    }
}

// A spot where a value of the form comes.
fn value(
    kind: Kind,
    word: &[u8],
    form: &'static str,
    levels: Vec<Level>,
) -> Result<Option<Standing>, AllocError>
    ensures ok { IfOk result (λ next. option_map standing_of next
        ≡ value kind word.now form.now (map level_of (reverse levels.items))) }
{
    match kind {
        Kind::Open => opened(form, brace_rows(form), levels),
        Kind::Word => Ok(worded(word, form, levels)),
        Kind::Text => Ok(stringed(word, form, levels)),
        Kind::Close | Kind::Comma | Kind::Colon | Kind::Touch => Ok(None),
    }
}

// The component of the name, and the rows behind its own.
fn field(
    form: &'static str,
    name: &[u8],
    rows: &'static [Row],
) -> Option<(&'static Row, &'static [Row])>
    ensures exact { option_map found_of result ≡ field form.now name.now (map row_of rows.now) }
{
    let (row, rest) = rows.split_first()?;
    if !has_braces(form, row) {
        None
    } else if row.name.as_bytes() == name {
        Some((row, rest))
    } else if is_needed(row.part) {
        None
    } else {
        field(form, name, rest)
    }
}

// Whether none of the components that may still come has to.
fn may_close(form: &'static str, rows: &'static [Row]) -> bool
    ensures exact { result ≡ may_close form.now (map row_of rows.now) }
{
    match rows.split_first() {
        Some((row, rest)) => {
            if has_braces(form, row) {
                !is_needed(row.part) && may_close(form, rest)
            } else {
                true
            }
        }
        None => true,
    }
}

// The form of the members, where the rows begin with a set's.
fn member_form(rows: &'static [Row]) -> Option<&'static str>
    ensures exact { option_map (λ form. form.now) result ≡ member_form (map row_of rows.now) }
{
    let (row, _) = rows.split_first()?;
    match row.part {
        Part::Member => Some(row.next),
        _ => None,
    }
}

// The identifier of a component.
fn component(
    kind: Kind,
    word: &[u8],
    level: Level,
    levels: Vec<Level>,
) -> Result<Option<Standing>, AllocError>
    ensures ok { IfOk result (λ next. option_map standing_of next
        ≡ component kind word.now (level_of level) (map level_of (reverse levels.items))) }
{
    let Kind::Word = kind else {
        return Ok(None);
    };
    let Some((row, rows)) = field(level.form, word, level.rows) else {
        return Ok(None);
    };
    let mut levels = levels;
    levels.push(Level {
        form: level.form,
        rows,
    })?;
    Ok(Some(Standing {
        turn: after_field(row),
        levels,
    }))
}

// A spot where a member of a set comes.
fn set_member(
    kind: Kind,
    word: &[u8],
    form: &'static str,
    level: Level,
    levels: Vec<Level>,
) -> Result<Option<Standing>, AllocError>
    ensures ok { IfOk result (λ next. option_map standing_of next
        ≡ value kind word.now form.now (level_of level ∷ map level_of (reverse levels.items))) }
{
    let mut levels = levels;
    levels.push(level)?;
    value(kind, word, form, levels)
}

// A spot where a member or a component of the innermost braces comes.
fn member_in(
    kind: Kind,
    word: &[u8],
    level: Level,
    levels: Vec<Level>,
) -> Result<Option<Standing>, AllocError>
    ensures ok { IfOk result (λ next. option_map standing_of next
        ≡ member_by (member_form (level_of level).rows) kind word.now (level_of level) (map level_of (reverse levels.items))) }
{
    match member_form(level.rows) {
        Some(form) => set_member(kind, word, form, level, levels),
        None => component(kind, word, level, levels),
    }
}

// A spot where a member or a component comes.
fn member(kind: Kind, word: &[u8], levels: Vec<Level>) -> Result<Option<Standing>, AllocError>
    ensures ok { IfOk result (λ next. option_map standing_of next
        ≡ member kind word.now (map level_of (reverse levels.items))) }
{
    let mut levels = levels;
    match levels.pop() {
        Some(level) => member_in(kind, word, level, levels),
        None => Ok(None),
    }
}

// A closing brace.
fn close(levels: Vec<Level>) -> Option<Standing>
    ensures exact { option_map standing_of result ≡ close (map level_of (reverse levels.items)) }
{
    let mut levels = levels;
    let level = levels.pop()?;
    if may_close(level.form, level.rows) {
        Some(Standing {
            turn: Turn::Behind,
            levels,
        })
    } else {
        None
    }
}

// A comma.
fn comma(levels: Vec<Level>) -> Option<Standing>
    ensures exact { option_map standing_of result ≡ comma (map level_of (reverse levels.items)) }
{
    if levels.is_empty() {
        None
    } else {
        Some(Standing {
            turn: Turn::Member,
            levels,
        })
    }
}

// A spot behind a value.
fn behind(kind: Kind, levels: Vec<Level>) -> Option<Standing>
    ensures exact { option_map standing_of result ≡ behind kind (map level_of (reverse levels.items)) }
{
    match kind {
        Kind::Comma => comma(levels),
        Kind::Close => close(levels),
        _ => None,
    }
}

// A spot behind an opening brace.
fn first(kind: Kind, word: &[u8], levels: Vec<Level>) -> Result<Option<Standing>, AllocError>
    ensures ok { IfOk result (λ next. option_map standing_of next
        ≡ first kind word.now (map level_of (reverse levels.items))) }
{
    match kind {
        Kind::Close => Ok(close(levels)),
        _ => member(kind, word, levels),
    }
}

// A spot behind a flag.
fn flagged(kind: Kind, word: &[u8], levels: Vec<Level>) -> Option<Standing>
    ensures exact { option_map standing_of result ≡ flagged kind word.now (map level_of (reverse levels.items)) }
{
    match kind {
        Kind::Word => {
            if word == b"NULL".as_slice() {
                Some(Standing {
                    turn: Turn::Behind,
                    levels,
                })
            } else {
                None
            }
        }
        _ => behind(kind, levels),
    }
}

// A spot behind the identifier of an alternative.
fn chosen(kind: Kind, form: &'static str, levels: Vec<Level>) -> Option<Standing>
    ensures exact { option_map standing_of result ≡ chosen kind form.now (map level_of (reverse levels.items)) }
{
    match kind {
        Kind::Colon => Some(Standing {
            turn: Turn::Value(form),
            levels,
        }),
        _ => None,
    }
}

/// What comes behind a spot; None where it may not stand there.
#[tactic(auto, unfolding(crate::specs::Standing::take))]
pub(crate) fn take(
    kind: Kind,
    word: &[u8],
    standing: Standing,
) -> Result<Option<Standing>, AllocError>
    ensures ok { IfOk result (λ next. option_map standing_of next
        ≡ take kind word.now (standing_of standing).turn (standing_of standing).levels) }
{
    let Standing { turn, levels } = standing;
    match turn {
        Turn::Value(form) => value(kind, word, form, levels),
        Turn::First => first(kind, word, levels),
        Turn::Member => member(kind, word, levels),
        Turn::Behind => Ok(behind(kind, levels)),
        Turn::Flagged => Ok(flagged(kind, word, levels)),
        Turn::Chosen(form) => Ok(chosen(kind, form, levels)),
    }
}

/// Whether a whole value has come, and no brace is open.
pub(crate) fn is_whole(standing: &Standing) -> bool
    ensures exact { result ≡ is_whole (standing_of standing.now).turn (standing_of standing.now).levels }
{
    match standing.turn {
        Turn::Behind => standing.levels.is_empty(),
        _ => false,
    }
}
