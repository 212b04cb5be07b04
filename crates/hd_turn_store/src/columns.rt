//! The columns of a journal's two tables. The texts of SQL that name them, and the test of a file's tables,
//! are made of these two lists, in the words of SQL.

use sqlite_schema::schema::Kind;

/// The table of the journal's head.
macro_rules! journal_table {
    ($made:ident) => {
        $made!(
            journal by only:
            1 format INTEGER NOT NULL,
            2 catalogue BLOB NOT NULL,
        )
    };
}

/// The table of turns.
macro_rules! turn_table {
    ($made:ident) => {
        $made!(
            turn by at:
            1 seat INTEGER NOT NULL,
            2 terminal TEXT NOT NULL,
            3 day TEXT NOT NULL,
            4 act TEXT NOT NULL,
            5 patron TEXT,
            6 copy TEXT,
            7 title TEXT,
            8 branch TEXT,
            9 admits TEXT,
            10 until TEXT,
            11 line BLOB,
            12 outcome TEXT NOT NULL,
            13 number INTEGER,
            14 reply BLOB NOT NULL,
        )
    };
}

macro_rules! create_text {
    ($table:ident by $key:ident: $($place:literal $name:ident $kind:ident $($need:ident)*,)*) => {
        concat!(
            "CREATE TABLE ", stringify!($table), " (", stringify!($key), " INTEGER PRIMARY KEY",
            $(", ", stringify!($name), " ", stringify!($kind), $(" ", stringify!($need),)*)*
            ") STRICT"
        )
    };
}

macro_rules! insert_text {
    ($table:ident by $key:ident: $first:literal $head:ident $type:ident $($must:ident)*,
        $($place:literal $name:ident $kind:ident $($need:ident)*,)*) => {
        concat!(
            "INSERT INTO ", stringify!($table), " (", stringify!($head), $(", ", stringify!($name),)*
            ") VALUES (?", $first, $(", ?", $place,)* ")"
        )
    };
}

macro_rules! select_text {
    ($table:ident by $key:ident: $first:literal $head:ident $type:ident $($must:ident)*,
        $($place:literal $name:ident $kind:ident $($need:ident)*,)*) => {
        concat!(
            "SELECT ", stringify!($head), $(", ", stringify!($name),)* " FROM ", stringify!($table),
            " WHERE ", stringify!($key), " > ?1 AND ", stringify!($key), " <= ?2 ORDER BY ",
            stringify!($key)
        )
    };
}

macro_rules! columns_of {
    ($table:ident by $key:ident: $($place:literal $name:ident $kind:ident $($need:ident)*,)*) => {
        [$(Column {
            name: stringify!($name),
            kind: kind_of!($kind),
            is_needed: is_needed!($($need)*),
        }),*]
    };
}

macro_rules! kind_of {
    (INTEGER) => { Kind::Integer };
    (TEXT) => { Kind::Text };
    (BLOB) => { Kind::Blob };
}

macro_rules! is_needed {
    () => { false };
    (NOT NULL) => { true };
}

/// A column of a table.
#[derive(Clone, Copy, Debug)]
pub struct Column {
    /// Its name.
    pub name: &'static str,
    /// What it has.
    pub kind: Kind,
    /// Whether it has a value in each row.
    pub is_needed: bool,
}

/// The columns of a turn, behind its number, in their order.
pub const COLUMNS: [Column; 14] = turn_table!(columns_of);

/// The columns of a journal's head, behind its key.
pub(crate) const HEAD_COLUMNS: [Column; 2] = journal_table!(columns_of);

/// Makes the table of the head.
pub(crate) const CREATE_JOURNAL: &str = journal_table!(create_text);

/// Makes the table of turns.
pub(crate) const CREATE_TURN: &str = turn_table!(create_text);

/// Makes the index of turns by number.
pub(crate) const CREATE_INDEX: &str = "CREATE INDEX turn_number ON turn (number)";

/// Puts the head.
pub(crate) const INSERT_JOURNAL: &str = journal_table!(insert_text);

/// Puts a turn.
pub(crate) const INSERT_TURN: &str = turn_table!(insert_text);

/// Shows the head, which is the first row.
pub(crate) const SELECT_HEAD: &str = journal_table!(select_text);

/// Shows the turns behind one number, up to another.
pub(crate) const SELECT_TURNS: &str = turn_table!(select_text);

/// Puts another digest into the head.
pub(crate) const UPDATE_HEAD: &str = "UPDATE journal SET catalogue = ?1";
