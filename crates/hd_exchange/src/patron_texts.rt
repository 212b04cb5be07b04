//! The texts of a patron message that are read the same way in all of them.
ghost use Rattle.std.specs.Prelude.{◌≡◌, None, Some};
ghost use Rattle.hd_catalogue.specs.Contents.{Contents};
ghost use Rattle.hd_exchange.specs.PatronMessages.{AreTextsOf, patron_states, request_states, unread_states};

use hd_message::{CardRequest, PatronKind, PatronRequest, UnreadablePatron};

/// The texts of a patron message, as far as it has them.
#[derive(Clone, Copy)]
pub(crate) struct PatronTexts<'a> {
    /// What kind of message it is.
    pub(crate) kind: PatronKind,
    /// The language of a 23 or a 63.
    pub(crate) language: Option<&'a [u8]>,
    /// The transaction date.
    pub(crate) date: Option<&'a [u8]>,
    /// AA, the patron identifier.
    pub(crate) patron: Option<&'a [u8]>,
    /// AD, the patron password, of a 23 or a 63; nothing where it is empty.
    pub(crate) password: Option<&'a [u8]>,
}

/// The texts of a patron message, as it is read.
pub(crate) fn patron_texts<'a>(
    read: &Result<PatronRequest<'a>, UnreadablePatron<'a>>,
) -> PatronTexts<'a>
    ensures { (k : Contents) → AreTextsOf (patron_states k read.now) result }
{
    match read {
        Ok(request) => request_texts(request),
        Err(message) => unread_texts(message),
    }
}

/// The texts of a patron message that can be read.
fn request_texts<'a>(request: &PatronRequest<'a>) -> PatronTexts<'a>
    ensures { (k : Contents) → AreTextsOf (request_states k request.now) result }
{
    match request {
        PatronRequest::Status(request) => PatronTexts {
            kind: PatronKind::Status,
            language: Some(request.language),
            date: Some(request.date),
            patron: Some(request.patron),
            password: request.password,
        },
        PatronRequest::Information(request) => PatronTexts {
            kind: PatronKind::Information,
            language: Some(request.language),
            date: Some(request.date),
            patron: Some(request.patron),
            password: request.password,
        },
        PatronRequest::EndSession(request) => card_texts(PatronKind::EndSession, request),
        PatronRequest::Block(request) => card_texts(PatronKind::Block, request),
        PatronRequest::FeePaid(request) => card_texts(PatronKind::FeePaid, request),
        PatronRequest::RenewAll(request) => card_texts(PatronKind::RenewAll, request),
    }
}

/// The texts of a message of this kind that names a card.
fn card_texts<'a>(kind: PatronKind, request: &CardRequest<'a>) -> PatronTexts<'a>
    ensures { result ≡ record {
      kind = kind;
      language = None;
      date = Some request.now.date;
      patron = Some request.now.patron;
      password = None;
    } }
{
    PatronTexts {
        kind,
        language: None,
        date: Some(request.date),
        patron: Some(request.patron),
        password: None,
    }
}

/// The texts of a patron message that can't be read, as far as they could be.
fn unread_texts<'a>(message: &UnreadablePatron<'a>) -> PatronTexts<'a>
    ensures { AreTextsOf (unread_states message.now) result }
{
    PatronTexts {
        kind: message.kind,
        language: message.language,
        date: message.date,
        patron: message.patron,
        password: None,
    }
}
