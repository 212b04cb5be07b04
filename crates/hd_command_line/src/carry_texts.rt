//! What the help of `carry` says.

/// What `carry` does, in a line.
pub(crate) const CARRY_ABOUT: &str = "Ends a journal, and writes how the next one begins";

/// What `carry` does.
pub(crate) const CARRY: &str = "Ends a journal, and writes how the next one begins

`carry` plays the turns of the journal, as `journal check` does. It carries the last desk over, by names, to
the catalogue of --to, which may be the old one. Each loan, hold, place on a hold shelf and transit stays, and
the order of each queue; numbers go on; new copies are at home. The opening file has all of it. `carry` writes
it beside its path, reads it back, compares the bytes, and renames it, so a stop at any moment leaves the old
library or the new one. The old files are never written again. A command of the old journal can't be cancelled
in the new one.

If something can't go over, as a copy on loan that the new catalogue lacks, nothing is written, and standard
error lists each such thing. Loans of copies in the file of --write-off are dropped, and listed.

With --keep-used the names that are in the way are kept: the old catalogue's lines of them are written after those
of the new one, and each is listed. They go at the first carry that no longer needs them. --most-gone refuses a
carry in which more old names of a kind would go, as after an export that was cut short. With either option `carry`
also reports how many names came, went and were kept, and how much was carried over.

With --library `carry` copies the catalogue into the folder under the next number, and begins its journal;
`serve --library` serves it from its next start on. Without, `journal begin --opening` begins the journal.";

/// An example of `carry`, and its exit statuses.
pub(crate) const CARRY_EXAMPLE: &str =
    "Example: each night, with the terminals idle and the server stopped

  $ holddesk carry --library /var/lib/holddesk --to /srv/export/library.catalogue
  turns: 3
  last number: 2
  old: 5f36b2ea290645ee34d943220a14b54ee5ea5be5ecb5ff3ae3d1e5ea1ac2cd11
  new: 9b74c9897bac770ffc029102a200c5de1d5d4d0ad4bd0a8a6a5aa31ba4e5a15f

old and new are the SHA-256 of the files that the two journals begin with: of the opening, or of the first
catalogue.

Exit status: 0 if all is well; 1 if something is in the way, or after a fault, printed as one line
(docs/faults.md has them all); 2 if the command line is refused.";
