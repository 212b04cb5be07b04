//! Line feeds.
ghost use Rattle.std.specs.Prelude.{◌≡◌};
ghost use Rattle.hd_field.specs.Streams.{without_feeds};

/// The bytes without the line feeds at their beginning.
pub(crate) fn without_feeds(bytes: &[u8]) -> &[u8]
    ensures { result.now ≡ without_feeds bytes.now }
{
    let mut rest = bytes;
    while let [b'\n', after @ ..] = rest {
        rest = after;
    }
    rest
}
