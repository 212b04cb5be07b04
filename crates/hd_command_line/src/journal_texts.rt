//! What the help of `journal` says, and the views that it prints.

/// What `journal` does, in a line.
pub(crate) const JOURNAL_ABOUT: &str =
    "Begins a journal's file, checks it, adds new names to its library, or prints lists and views";

/// What `journal begin` does, in a line.
pub(crate) const JOURNAL_BEGIN_ABOUT: &str = "Begins a journal's file, which isn't there yet";

/// What `journal begin` does.
pub(crate) const JOURNAL_BEGIN: &str = "Begins a journal's file, which isn't there yet

`journal begin` makes the file, and its log FILE-wal beside it. The two belong together. The journal belongs
to the given catalogue file, by its SHA-256, and has no turns: each copy is on the open shelf of its home, and
there are no holds. `serve` and `journal check` never begin a journal, so a mistake in a path doesn't give an
empty desk. No existing file is overwritten.

With --library the catalogue is copied into that folder as 0001.catalogue, and the journal is 0001.journal
there. With --opening, for a library that comes from another system with its loans and holds, both files are
copied, as 0002.catalogue and 0002.opening, and the journal is 0002.journal.";

/// An example of `journal begin`, and its exit statuses.
pub(crate) const JOURNAL_BEGIN_EXAMPLE: &str = "Example:

  $ holddesk journal begin --catalogue demonstration.catalogue --journal day.journal
  begun: day.journal
  $ holddesk serve --catalogue demonstration.catalogue --journal day.journal \\
      --listen 127.0.0.1:6001 --workers 4
  $ (echo \"H|opening|1|9|$(sha256sum < demonstration.catalogue | cut -c 1-64)\" &&
    echo 'L|a1|p1|20260322|0') > first.opening
  $ mkdir library
  $ holddesk journal begin --library library --catalogue demonstration.catalogue --opening first.opening
  begun: library/0002.journal

Exit status: 0 if all is well; 1 after a fault, printed as one line (`there is a journal at FILE`, `there is a
library in DIR`, and those of the catalogue, the opening and a journal's file, which docs/faults.md has with
what to do); 2 if the command line is refused.";

/// What `journal check` does, in a line.
pub(crate) const JOURNAL_CHECK_ABOUT: &str =
    "Plays the turns of a journal's file again, and compares";

/// What `journal check` does.
pub(crate) const JOURNAL_CHECK: &str = "Plays the turns of a journal's file again, and compares

`journal check` opens the file as `serve --journal` does: it plays each turn again, and compares the result
with the file. Then it prints five lines: the numbers of turns and of surviving commands, and how many copies
are on loan, on hold shelves and in transit. It changes no turn of the file.";

/// An example of `journal check`, and its exit statuses.
pub(crate) const JOURNAL_CHECK_EXAMPLE: &str = "Example:

  $ holddesk journal check --catalogue demonstration.catalogue --journal day.journal
  turns: 3
  survivors: 2
  copies on loan: 1
  copies on hold shelves: 0
  copies in transit: 0

Exit status: 0 if all is well; 1 after a fault, printed as one line (docs/faults.md has them all); 2 if the
command line is refused.";

/// What `journal views` does, in a line.
pub(crate) const JOURNAL_VIEWS_ABOUT: &str = "Prints views of a journal's file, in SQL for sqlite3";

/// What `journal views` does.
pub(crate) const JOURNAL_VIEWS: &str = "Prints views of a journal's file, in SQL for sqlite3

`surviving` has the commands that were done and not cancelled, and `moved` those of them that lent, renewed or
took back a copy. `lent` has the copies on loan: copy, patron, since which day, and until which day if an
off-line checkout said it. With --opening they include the loans that the journal began with; of these the day
until which is known, and the day since which isn't. A file is locked while `serve` has it open: read a copy
of it and its log, made after a stop.";

/// An example of `journal views`.
pub(crate) const JOURNAL_VIEWS_EXAMPLE: &str = "Example: who has the copy a1, and since when

  $ holddesk journal views > views.sql
  $ cp day.journal copy.journal && cp day.journal-wal copy.journal-wal
  $ sqlite3 -init views.sql copy.journal \"SELECT patron, since FROM lent WHERE copy = 'a1'\"
  p1|2026-03-01";

/// The views. They are temporary, since a journal's file has two tables and nothing else. They need a table
/// `opened` of the loans that the journal began with: copy, patron and the day on which each is due.
pub const VIEWS: &str = "\
-- The commands that were done and not cancelled.
CREATE TEMP VIEW surviving AS
SELECT number, at, seat, terminal, day, act, patron, copy, title, branch, admits, until
FROM turn
WHERE outcome = 'done' AND number NOT IN (SELECT number FROM turn WHERE outcome = 'cancelled');

-- Those of them that lent, renewed or took back a copy, after the loans that the journal began with.
CREATE TEMP VIEW moved AS
SELECT 0 AS number, copy, patron, NULL AS day, until, 0 AS is_return
FROM opened
UNION ALL
SELECT number, copy, patron, day, until, act = 'checkin'
FROM surviving
WHERE act IN ('checkout', 'checkout or renewal', 'checkout off line', 'renewal', 'checkin');

-- The copies on loan. A loan begins with a copy's first command, with the first one after a return, and with
-- one of another patron than the one before. What came after a copy's last return is of the present loan.
CREATE TEMP VIEW lent AS
WITH step AS MATERIALIZED (SELECT number, copy, patron, day, until, is_return FROM moved),
kept AS MATERIALIZED (
  SELECT number, copy, patron, day, until
  FROM step LEFT JOIN (SELECT copy, max(number) AS back FROM step WHERE is_return GROUP BY copy) USING (copy)
  WHERE back IS NULL OR number > back),
begun AS (
  SELECT number, copy, patron, day, patron IS NOT lag(patron) OVER earlier AS begins
  FROM kept
  WINDOW earlier AS (PARTITION BY copy ORDER BY number))
SELECT copy, patron, since, until
FROM (SELECT copy, patron, day AS since, max(number) FROM begun WHERE begins GROUP BY copy)
JOIN (SELECT copy, until, max(number) FROM kept GROUP BY copy) USING (copy);
";
