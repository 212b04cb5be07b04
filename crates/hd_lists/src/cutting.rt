//! Cutting bytes at a mark or a prefix.
ghost use Rattle.std.specs.Prelude.{◌≡◌, ◌≢◌, ◌==◌, ◌++◌, List, ℕ, MatchOption, option_map, position};
ghost use Rattle.hd_lists.specs.Cuts.{after_mark, after_prefix, before_mark, rest_at};

/// The bytes before the first such mark, or all of them; and those after it, if there is one.
pub fn cut(bytes: &[u8], mark: u8) -> (&[u8], Option<&[u8]>)
    ensures before { result.0.now ≡ before_mark mark bytes.now }
    ensures after { option_map (λ rest. rest.now) result.1 ≡ after_mark mark bytes.now }
{
    match first(bytes, mark) {
        Some(at) => {
            let (before, rest) = bytes.split_at(at);
            let (_, after) = rest.split_at(1);
            (before, Some(after))
        }
        None => (bytes, None),
    }
}

/// The place of the first such mark.
fn first(bytes: &[u8], mark: u8) -> Option<usize>
    ensures { result ≡ position (λ byte. byte == mark) bytes.now }
{
    bytes.iter().position(|byte| *byte == mark)
}

/// The bytes after a prefix, if they have it.
pub(crate) fn after_prefix<'a>(bytes: &'a [u8], prefix: &[u8]) -> Option<&'a [u8]>
    ensures value { option_map (λ rest. rest.now) result ≡ after_prefix prefix.now bytes.now }
    ensures cases { MatchOption result
        ((rest : List ℕ) → bytes.now ≢ prefix.now ++ rest)
        (λ rest. bytes.now ≡ prefix.now ++ rest.now) }
{
    bytes.strip_prefix(prefix)
}

/// The bytes before the first such mark, or all; and those from it on.
pub(crate) fn split(bytes: &[u8], mark: u8) -> (&[u8], &[u8])
    ensures before { result.0.now ≡ before_mark mark bytes.now }
    ensures rest { result.1.now ≡ rest_at mark bytes.now }
{
    match first(bytes, mark) {
        Some(at) => bytes.split_at(at),
        None => (bytes, b""),
    }
}
