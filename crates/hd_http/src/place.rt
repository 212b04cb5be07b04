//! The paths that name no list.
ghost use Rattle.std.specs.Prelude.{◌≡◌};
ghost use Rattle.hd_http.specs.Places.{place_of};

/// What a path names that is no list.
#[derive(Clone, Copy, Debug, PartialEq, Eq)]
pub(crate) enum Place {
    /// The page, at `/`.
    Home,
    /// `/health`
    Health,
    /// `/metrics`
    Metrics,
}

/// What a path names that is no list, if it does.
pub(crate) fn place_of(path: &[u8]) -> Option<Place>
    ensures { result ≡ place_of path.now }
{
    if path == b"/".as_slice() {
        return Some(Place::Home);
    }
    if path == b"/health".as_slice() {
        return Some(Place::Health);
    }
    if path == b"/metrics".as_slice() {
        return Some(Place::Metrics);
    }
    None
}
