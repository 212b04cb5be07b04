//! What the help of `journal join` says.

/// What `journal join` does, in a line.
pub(crate) const JOURNAL_JOIN_ABOUT: &str = "Adds new names to a library whose server is stopped";

/// What `journal join` does.
pub(crate) const JOURNAL_JOIN: &str = "Adds new names to a library whose server is stopped

A card that is made at noon, or a title that is bought, needn't wait for the next `carry`. FILE is the whole
catalogue as it is now, as the export writes it. The branches, terminals, patrons, titles and copies that it
has and the library lacks join the library, after the last of their kind. The journal goes on: its turns stay,
and earlier commands can still be cancelled.

A copy that joins is on its way to its home. Its first checkin puts it on the shelf there, or keeps it for a
hold. Names that FILE lacks stay, and so do values that differ, as a loan limit or a home, until the next
`carry`. They are reported by kind, the first twenty by name.

The lines that join are kept in the folder, as 0001.joined beside 0001.catalogue. `journal join` writes that
file beside its path, syncs it and renames it: a stop at any moment leaves the old library, or the one that
all names joined. It changes no other file of the library. If FILE is refused, or the catalogue that would
result, nothing changes. Stop the server first, as for `carry`.";

/// An example of `journal join`, and its exit statuses.
pub(crate) const JOURNAL_JOIN_EXAMPLE: &str =
    "Example: a card is made at noon, with the server stopped

  $ mkdir library
  $ holddesk journal begin --library library --catalogue demonstration.catalogue
  begun: library/0001.journal
  $ (cat demonstration.catalogue && echo 'P|p4|3') > export.catalogue
  $ holddesk journal join --library library --catalogue export.catalogue
  joining 0001 of library
  joined branches: 0
  joined terminals: 0
  joined patrons: 1
  joined titles: 0
  joined copies: 0

Exit status: 0 if all is well, also if there was nothing new; 1 after a fault, printed as one line
(docs/faults.md has them all); 2 if the command line is refused.";
