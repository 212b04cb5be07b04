//! What the check of a password says.

/// What the check of the password that was given for a patron says.
#[derive(Clone, Copy, PartialEq, Eq, Debug)]
pub enum PasswordCheck {
    /// There is no patrons' file: nothing is checked.
    NoFile,
    /// It is the patron's password, byte by byte.
    Right,
    /// The patron has another password.
    Wrong,
    /// The file has no password of the patron.
    NoPassword,
}
