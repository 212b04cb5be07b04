//! First lines that say the same but for the offset.
ghost use Rattle.std.specs.Prelude.{◌≡◌, ◌∷◌, [], IfSome, IsTrue, codes};
ghost use Rattle.hd_catalogue.specs.Text.{values_of};
ghost use Rattle.hd_zone.specs.Moved.{SaysSame};

use hd_catalogue::Values;

/// The values of a first line.
#[derive(Clone, Copy)]
pub(crate) struct Heading<'a> {
    pub(crate) version: &'a [u8],
    pub(crate) institution: &'a [u8],
    pub(crate) offset: &'a [u8],
    pub(crate) limit: &'a [u8],
}

/// The values of a line, if it has the letter and as many values as a first line.
pub(crate) fn heading_of(line: &[u8]) -> Option<Heading<'_>>
    ensures { IfSome result (λ heading. values_of line.now ≡ codes "H" ∷ heading.version.now
        ∷ heading.institution.now ∷ heading.offset.now ∷ heading.limit.now ∷ []) }
{
    let mut values = Values::of(line);
    if values.take()? != b"H".as_slice() {
        return None;
    }
    let (version, institution, offset, limit) = values.four()?;
    Some(Heading {
        version,
        institution,
        offset,
        limit,
    })
}

/// Whether two first lines say the same, but for the offset.
pub(crate) fn says_same(one: &[u8], other: &[u8]) -> bool
    ensures { IsTrue result → SaysSame one.now other.now }
{
    let Some(one) = heading_of(one) else {
        return false;
    };
    let Some(other) = heading_of(other) else {
        return false;
    };
    one.version == other.version && one.institution == other.institution && one.limit == other.limit
}
