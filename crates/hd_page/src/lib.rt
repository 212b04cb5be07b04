//! The page: one HTML document for librarians and IT, with its style and its script inside.
#![tactic(auto)]

ghost use Rattle.std.specs.Prelude.{◌≡◌};
ghost use Rattle.hd_page.specs.declared.text.TheConstants.{POLICY, TEXT};

mod text;

use crate::text::{POLICY, TEXT};
use hd_http::Page;

/// The page, and the policy that names its script and its style by their sums.
pub fn page() -> Page<'static>
    ensures text { result.text.now ≡ TEXT.now }
    ensures policy { result.policy.now ≡ POLICY.now }
{
    Page {
        text: TEXT,
        policy: POLICY,
    }
}
