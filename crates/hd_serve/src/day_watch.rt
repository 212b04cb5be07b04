//! Terminals whose clock is off: whether the day of a message is the server's.
ghost use Rattle.std.specs.Prelude.{◌≡◌, ◌≢◌, ◌↔◌, IfNone, IfSome, IsFalse, IsTrue, Some};
ghost use Rattle.std.specs.Option.{option_copied};
ghost use Rattle.hd_serve.specs.Days.{IsNear, IsOff, Sees, card_date, date_read, days_apart, patron_date};
ghost use Rattle.hd_serve.specs.Days.{request_date, standard_date, unreadable_date};

use hd_date::{Day, OffsetMinutes, texts_show_one_stamp};
use hd_message::{
    PatronRequest, Profile, Reading, Request, Unreadable, UnreadablePatron, read_with,
};

/// A message whose day is off.
#[derive(Clone, Copy)]
pub(crate) struct OffDay<'a> {
    /// The message's transaction date.
    pub(crate) date: &'a [u8],
    /// How many days its day is from the server's.
    pub(crate) days: u64,
}

/// Compares the days of a connection's messages with the server's, where that is on. A clock that is off is
/// reported once a day.
#[derive(Clone, Copy)]
pub(crate) struct DayWatch {
    pub(crate) offset: OffsetMinutes,
    /// Which messages are read.
    pub(crate) profile: Profile,
    /// How many days a message may be from the server's day. None where the days aren't compared.
    pub(crate) most: Option<u32>,
    /// The day of the last report.
    pub(crate) told: Option<Day>,
}

impl DayWatch {
    /// What is to be reported of the body of a message today. Nothing where its day isn't off, or where an
    /// earlier one was reported today.
    pub(crate) fn see<'l>(&mut self, today: Day, body: &'l [u8]) -> Option<OffDay<'l>>
        ensures { Sees self.old self.new body.now today result }
    {
        let most = self.most?;
        let date = date_read(&read_with(self.profile, body))?;
        let days = days_off(most, self.offset, today, date)?;
        if self.is_news(today) {
            Some(OffDay { date, days })
        } else {
            None
        }
    }

    /// Whether nothing has been reported today. It counts as reported from then on.
    fn is_news(&mut self, today: Day) -> bool
        ensures news { IsTrue result ↔ (self.old.told ≢ Some today) }
        ensures old { IsFalse result → self.old.told ≡ Some today }
        ensures told { self.new ≡ record self.old { told = Some today } }
    {
        let is_news = self.told != Some(today);
        self.told = Some(today);
        is_news
    }
}

/// How many days a date is from today, where they are more than may be.
fn days_off(most: u32, offset: OffsetMinutes, today: Day, date: &[u8]) -> Option<u64>
    ensures off { IfSome result (IsOff most offset today date.now) }
    ensures near { IfNone result (IsNear most offset today date.now) }
{
    texts_show_one_stamp();
    let Ok(stamp) = hd_date::read(date, offset) else {
        return None;
    };
    let days = days_apart(today, stamp.day());
    if days > most {
        Some(u64::from(days))
    } else {
        None
    }
}

/// How many days two days are apart.
fn days_apart(one: Day, other: Day) -> u32
    ensures { result ≡ days_apart one other }
{
    one.number().abs_diff(other.number())
}

/// The transaction date of a message, as it is read.
fn date_read<'a>(reading: &Reading<'a>) -> Option<&'a [u8]>
    ensures { option_copied result ≡ date_read reading.now }
{
    match *reading {
        Reading::Standard(answer) => standard_date(&answer),
        Reading::Patron(answer) => card_date(&answer),
    }
}

/// The date of a message of the standard profile.
fn standard_date<'a>(answer: &Result<Request<'a>, Unreadable<'a>>) -> Option<&'a [u8]>
    ensures { option_copied result ≡ standard_date answer.now }
{
    match *answer {
        Ok(request) => request_date(&request),
        Err(message) => unreadable_date(&message),
    }
}

/// The date of a patron message.
fn card_date<'a>(answer: &Result<PatronRequest<'a>, UnreadablePatron<'a>>) -> Option<&'a [u8]>
    ensures { option_copied result ≡ card_date answer.now }
{
    match *answer {
        Ok(request) => Some(patron_date(&request)),
        Err(message) => message.date,
    }
}

/// The date of a request, if it has one.
fn request_date<'a>(request: &Request<'a>) -> Option<&'a [u8]>
    ensures { option_copied result ≡ request_date request.now }
{
    match *request {
        Request::Checkout(request) => Some(request.date),
        Request::Checkin(request) => Some(request.date),
        Request::Hold(request) => Some(request.date),
        Request::Renew(request) => Some(request.date),
        Request::Item(request) => Some(request.date),
        Request::Login(_) | Request::Status | Request::Resend | Request::Unsupported => None,
    }
}

/// The date of a patron message that can be read.
fn patron_date<'a>(request: &PatronRequest<'a>) -> &'a [u8]
    ensures { result.now ≡ patron_date request.now }
{
    match *request {
        PatronRequest::Status(request) => request.date,
        PatronRequest::Information(request) => request.date,
        PatronRequest::EndSession(request)
        | PatronRequest::Block(request)
        | PatronRequest::FeePaid(request)
        | PatronRequest::RenewAll(request) => request.date,
    }
}

/// The date of a message that can't be read, where it is long enough for it.
fn unreadable_date<'a>(message: &Unreadable<'a>) -> Option<&'a [u8]>
    ensures { option_copied result ≡ unreadable_date message.now }
{
    match *message {
        Unreadable::Login => None,
        Unreadable::Desk(message) => message.date,
    }
}
