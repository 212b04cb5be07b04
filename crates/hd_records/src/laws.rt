//! A law: the contract of a function that does nothing. Its statement is in `specs/Looks.antt`.

ghost use Rattle.hd_records.specs.Looks.{WalksAreShort};

use hd_clash::comparisons_are_few;

/// A walk over records looks at each of them once at most, and compares at most four answers for each of
/// their questions.
pub fn walks_are_short()
    ensures { WalksAreShort }
{
    comparisons_are_few();
}
