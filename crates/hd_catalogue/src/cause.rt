//! Why a catalogue file is refused.

/// The cause of a fault, in the order in which causes are looked for in a line (docs/catalogue.md).
#[derive(Clone, Copy, PartialEq, Eq, Debug)]
pub enum Cause {
    /// The first line isn't `H|1|institution|offset|limit`, nor the
    /// same with `2`, or the file is empty: write that line first.
    Header,
    /// The line begins with none of the letters `B`, `S`, `P`, `T`, `C`, is empty,
    /// or is a second header: give it one of the five letters, or delete it.
    Kind,
    /// The line has more or fewer values than its kind has: add or
    /// delete values or bars; a title has a priority in version 2 alone.
    Fields,
    /// A name, password or institution isn't 1 to 60 printable bytes, a priority is
    /// neither `L` nor `N`, or the line is longer than 1,024 bytes: shorten or correct it.
    Text,
    /// A number has another sign than a digit or a leading zero, or
    /// is outside its limits: write it in plain digits within them.
    Number,
    /// The name is defined in an earlier line of its kind: delete this line, or give it another name.
    Double,
    /// The line names a branch or a title that no line before
    /// it defines: correct the name, or move that line up.
    Unknown,
    /// There are as many names of this kind as a catalogue may have: delete names that aren't used any more.
    Limit,
    /// There was no memory for what the line says: give the program more memory.
    Memory,
}

/// The first bad line, from 1, and its cause.
#[derive(Clone, Copy, PartialEq, Eq, Debug)]
pub struct CatFault {
    /// The number of the line, the first being 1.
    pub line: usize,
    /// Why the line is refused: the first cause that applies.
    pub cause: Cause,
}
