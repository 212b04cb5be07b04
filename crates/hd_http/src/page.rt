//! The page and its policy.
ghost use Rattle.std.specs.List.{AllPass};
ghost use Rattle.httparse.specs.Grammar.{is_value_byte};

/// What is shown at `/`, and the policy that is sent with each reply.
#[derive(Clone, Copy)]
pub struct Page<'a> {
    /// An HTML document.
    pub text: &'a [u8],
    /// The value of `Content-Security-Policy`, which names the document's script and style.
    pub policy: &'a [u8],
    // A policy ends no field of a head.
    ghost readable: { AllPass is_value_byte policy.now },
}
