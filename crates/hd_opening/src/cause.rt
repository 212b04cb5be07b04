//! Why an opening file is refused.

/// The cause of a fault, in the order in which causes are looked for in a line (docs/opening.md).
#[derive(Clone, Copy, PartialEq, Eq, Debug)]
pub enum OpeningCause {
    /// The first line isn't `H|opening|1|last|digest`, or the file is empty: write that line first.
    Header,
    /// The line begins with none of the letters `L`, `O`, `R`, `K`, `W`, `U`, or is empty:
    /// give it one of the six letters, or delete it.
    Kind,
    /// The line has more or fewer values than its kind has: add or delete values or bars.
    Fields,
    /// A name isn't 1 to 60 printable bytes, a hold admits none of `any`, `branch` and `copy`, or has a
    /// copy's name where it doesn't admit one copy alone, the digest isn't 64 hexadecimal digits in lower
    /// case, or the line is longer than 1,024 bytes: correct it.
    Text,
    /// A number has another sign than a digit or a leading zero, or is outside its limits, or a day is none
    /// of the calendar: write it in plain digits within them.
    Number,
    /// The catalogue lacks a name of the line: correct the name, or take the catalogue that has it.
    Unknown,
    /// The digest is that of another catalogue file: take the catalogue that the opening was written for.
    Other,
    /// There was no memory for what the line says: give the program more memory.
    Memory,
}

/// The first bad line, from 1, and its cause.
#[derive(Clone, Copy, PartialEq, Eq, Debug)]
pub struct OpeningFault {
    /// The number of the line, the first being 1.
    pub line: usize,
    /// Why the line is refused: the first cause that applies.
    pub cause: OpeningCause,
}
