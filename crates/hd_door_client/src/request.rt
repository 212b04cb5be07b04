//! What a server is asked.
ghost use Rattle.std.specs.Prelude.{◌≡◌, ◌++◌, IfOk};
ghost use Rattle.hd_door_client.specs.Requests.{request_text};
ghost use Rattle.hd_lists.specs.declared.asking.TheConstants.{FIELDS};

use hd_lists::{FIELDS, Question};
use std::alloc::{AllocError, Global};

/// What a server is asked.
#[derive(Clone, Copy, Debug, PartialEq, Eq)]
pub enum Request<'a> {
    /// Whether it can do its work.
    Health,
    /// Its numbers.
    Metrics,
    /// A page of a list.
    See(Question<&'a [u8]>),
    /// To end.
    Stop,
}

/// The bytes of a request.
///
/// # Errors
/// Out of memory.
pub fn request_of(alloc: Global, request: &Request<'_>) -> Result<Vec<u8>, AllocError>
    ensures { IfOk result (λ bytes. bytes.items ≡ request_text request.now) }
{
    match request {
        Request::Health => with_fields(alloc, b"GET /health"),
        Request::Metrics => with_fields(alloc, b"GET /metrics"),
        Request::See(question) => hd_lists::request_of(alloc, question),
        Request::Stop => with_fields(alloc, b"POST /stop"),
    }
}

/// The bytes of a request with this method and target.
///
/// # Errors
/// Out of memory.
fn with_fields(alloc: Global, front: &[u8]) -> Result<Vec<u8>, AllocError>
    ensures { IfOk result (λ bytes. bytes.items ≡ front.now ++ FIELDS.now) }
{
    let mut bytes = Vec::new(alloc);
    bytes.extend_from_slice(front)?;
    bytes.extend_from_slice(FIELDS)?;
    Ok(bytes)
}
