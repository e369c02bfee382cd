//! The table of the lines that a record may have behind `do`.

ghost use Rattle.std.specs.Prelude.{◌≡◌};
ghost use Rattle.client_core.specs.Rows.{is_needed, is_repeated, row_of, is_change, is_value, is_of};

use crate::words::Word;

/// What a line says.
#[derive(Clone, Copy, Debug, PartialEq, Eq, Drop)]
pub(crate) enum Cell {
    /// The password of a bind.
    Password,
    /// How far below its base a search goes.
    Scope,
    /// The most entries to be sent.
    Limit,
    /// That types are sent without values.
    Only,
    /// Whether subentries are asked for, or ordinary entries.
    Subentries,
    /// The filter of a search.
    Filter,
    /// A type to be sent.
    Select,
    /// A value of the type that the line has.
    Attribute,
    /// A change of the type that the line names.
    Change,
    /// A further change, or a value of the change before.
    ChangeOrValue,
    /// The new RDN.
    NewRdn,
    /// That the values of the old RDN stay.
    Keep,
    /// The new superior.
    NewSuperior,
}

/// How many lines may stand at a place of a row.
#[derive(Clone, Copy, Debug, PartialEq, Eq, Drop)]
pub(crate) enum Count {
    /// One or none.
    Optional,
    /// One.
    Needed,
    /// Any number.
    Repeated,
}

/// A place of a row.
#[derive(Clone, Copy, Debug, PartialEq, Eq, Drop)]
pub(crate) struct Slot {
    pub(crate) cell: Cell,
    pub(crate) count: Count,
}

// A row of the table.
macro_rules! row {
    ($($cell:ident $count:ident),*) => {
        [$(Slot { cell: Cell::$cell, count: Count::$count }),*]
    };
}

static BIND: [Slot; 1] = row![Password Optional];

#[rattlefmt::skip]
static SEARCH: [Slot; 6] = row![
    Scope Optional, Limit Optional, Only Optional, Subentries Optional, Filter Optional, Select Repeated
];

static COMPARE: [Slot; 1] = row![Attribute Needed];

static ADD: [Slot; 2] = row![Attribute Needed, Attribute Repeated];

static MODIFY: [Slot; 2] = row![Change Needed, ChangeOrValue Repeated];

static RENAME: [Slot; 3] = row![NewRdn Needed, Keep Optional, NewSuperior Optional];

static NONE: [Slot; 0] = [];

/// The row of an operation.
pub(crate) fn row_of(word: Word) -> &'static [Slot]
    ensures exact { result.now ≡ row_of word }
{
    match word {
        Word::Bind => &BIND,
        Word::Search => &SEARCH,
        Word::Compare => &COMPARE,
        Word::Add => &ADD,
        Word::Modify => &MODIFY,
        Word::Rename => &RENAME,
        Word::Delete | Word::WhoAmI | Word::Unbind => &NONE,
    }
}

impl Count {
    /// Whether one line has to stand there.
    pub(crate) fn is_needed(self) -> bool
        ensures exact { result ≡ is_needed self }
    {
        match self {
            Count::Needed => true,
            Count::Optional | Count::Repeated => false,
        }
    }

    /// Whether any number of lines may stand there.
    pub(crate) fn is_repeated(self) -> bool
        ensures exact { result ≡ is_repeated self }
    {
        match self {
            Count::Repeated => true,
            Count::Optional | Count::Needed => false,
        }
    }
}

/// Whether the type is that of a value of the change before.
pub(crate) fn is_value(kind: &[u8]) -> bool
    ensures exact { result ≡ is_value kind.now }
{
    kind == b"value".as_slice()
}

// Whether the type is that of a change.
fn is_change(kind: &[u8]) -> bool
    ensures exact { result ≡ is_change kind.now }
{
    kind == b"add".as_slice() || kind == b"delete".as_slice() || kind == b"replace".as_slice()
}

impl Cell {
    /// Whether a line of the type may stand in the cell.
    pub(crate) fn is_of(self, kind: &[u8]) -> bool
        ensures exact { result ≡ is_of self kind.now }
    {
        match self {
            Cell::Password => kind == b"password".as_slice(),
            Cell::Scope => kind == b"scope".as_slice(),
            Cell::Limit => kind == b"limit".as_slice(),
            Cell::Only => kind == b"only".as_slice(),
            Cell::Subentries => kind == b"subentries".as_slice(),
            Cell::Filter => kind == b"filter".as_slice(),
            Cell::Select => kind == b"select".as_slice(),
            Cell::Attribute => true,
            Cell::Change => is_change(kind),
            Cell::ChangeOrValue => is_value(kind) || is_change(kind),
            Cell::NewRdn => kind == b"newrdn".as_slice(),
            Cell::Keep => kind == b"keep".as_slice(),
            Cell::NewSuperior => kind == b"newsuperior".as_slice(),
        }
    }
}
