//! How sheets are written.

/// The encoding of a file.
#[derive(Clone, Copy, PartialEq, Eq, Debug)]
pub enum Encoding {
    /// UTF-8, with a mark at the start or without.
    Utf8,
    /// Latin-1 (ISO 8859-1): each byte is the character of its number.
    Latin1,
}

/// How the sheets are written.
#[derive(Clone, Copy, PartialEq, Eq, Debug)]
pub struct Format {
    /// Their encoding.
    pub encoding: Encoding,
    /// The byte between two values; `None`: the one that the first line shows, a tab, else a semicolon, else
    /// a comma.
    pub separator: Option<u8>,
}
