//! What is shown at a target.
ghost use Rattle.std.specs.Prelude.{◌≡◌, IfOk, option_map};
ghost use Rattle.hd_lists.specs.Hearing.{heard_in};
ghost use Rattle.hd_lists.specs.Questions.{map_question};
ghost use Rattle.hd_http.specs.Answers.{health_answer, metrics_answer, page_answer};
ghost use Rattle.hd_http.specs.Faults.{fault_text};
ghost use Rattle.hd_http.specs.Seen.{seen};
ghost use Rattle.hd_http.specs.Shows.{AnswersHeard, Shows, ShowsAsked, ShowsPlace};

use crate::metrics::write_metrics;
use crate::page::Page;
use crate::place::{Place, place_of};
use crate::reply::{Media, Reply, Status, refuse, say};
use crate::state::{Health, State};
use crate::view::{Outcome, View, ViewFault};
use hd_lists::{Heard, Question, cut, hear};
use std::alloc::{AllocError, Global};

/// Why a view can't answer, in words.
fn fault_text(fault: ViewFault) -> &'static [u8]
    ensures { result.now ≡ fault_text fault }
{
    match fault {
        ViewFault::Memory => b"out of memory",
        ViewFault::Shut => b"the journal is shut",
    }
}

/// What is seen of what is asked.
fn show_asked<V: View>(
    alloc: Global,
    view: &V,
    question: &Question<&[u8]>,
) -> Result<Reply, AllocError>
    ensures { IfOk result (λ r. ShowsAsked (V.shows view.now)
        (map_question (λ n. n.now) question.now) (seen r)) }
{
    let mut body = Vec::new(alloc);
    match view.write(question, &mut body) {
        Ok(Outcome::Written) => Ok(Reply {
            status: Status::Ok,
            media: Media::Json,
            body,
        }),
        Ok(Outcome::Unknown) => refuse(alloc, Status::NotFound),
        Ok(Outcome::Refused) => refuse(alloc, Status::BadRequest),
        Err(fault) => say(alloc, Status::Unavailable, fault_text(fault)),
    }
}

/// Whether a library can do its work, and else why not.
fn show_health(alloc: Global, health: Health) -> Result<Reply, AllocError>
    ensures { IfOk result (λ r. seen r ≡ health_answer health) }
{
    match health {
        Health::Well => say(alloc, Status::Ok, b"ok"),
        Health::Shut => say(alloc, Status::Unavailable, b"the journal is shut"),
        Health::Full => say(alloc, Status::Unavailable, b"no seat can be had"),
        Health::Gone => say(alloc, Status::Unavailable, b"the journal's file is gone"),
    }
}

/// A library's state, for Prometheus.
fn show_metrics(alloc: Global, state: &State) -> Result<Reply, AllocError>
    ensures { IfOk result (λ r. seen r ≡ metrics_answer state.now) }
{
    let mut body = Vec::new(alloc);
    write_metrics(alloc, &mut body, state)?;
    Ok(Reply {
        status: Status::Ok,
        media: Media::Metrics,
        body,
    })
}

/// The page.
fn show_page(alloc: Global, text: &[u8]) -> Result<Reply, AllocError>
    ensures { IfOk result (λ r. seen r ≡ page_answer text.now) }
{
    Ok(Reply {
        status: Status::Ok,
        media: Media::Html,
        body: Vec::from_slice(alloc, text)?,
    })
}

/// What is shown at a place that is no list, and has no query.
fn show_place<V: View>(
    alloc: Global,
    page: &Page<'_>,
    view: &V,
    place: Place,
    query: Option<&[u8]>,
) -> Result<Reply, AllocError>
    ensures { IfOk result (λ r. ShowsPlace
        (record { page = page.now.text.now; shows = V.shows view.now; tells = V.tells view.now })
        place (option_map (λ q. q.now) query.entry) (seen r)) }
{
    if query.is_some() {
        return refuse(alloc, Status::BadRequest);
    }
    match place {
        Place::Home => show_page(alloc, page.text),
        Place::Health => show_health(alloc, view.state().health),
        Place::Metrics => show_metrics(alloc, &view.state()),
    }
}

/// What is shown of what is asked by a target.
fn show_heard<V: View>(alloc: Global, view: &V, target: &[u8]) -> Result<Reply, AllocError>
    ensures { IfOk result (λ r. AnswersHeard (V.shows view.now) (heard_in target.now) (seen r)) }
{
    let mut name = Vec::new(alloc);
    match hear(target, &mut name)? {
        Heard::Nothing => refuse(alloc, Status::NotFound),
        Heard::Malformed => refuse(alloc, Status::BadRequest),
        Heard::Asked(question) => show_asked(alloc, view, &question),
    }
}

/// What is shown at a target.
pub(crate) fn show_target<V: View>(
    alloc: Global,
    page: &Page<'_>,
    view: &V,
    target: &[u8],
) -> Result<Reply, AllocError>
    ensures { IfOk result (λ r. Shows
        (record { page = page.now.text.now; shows = V.shows view.now; tells = V.tells view.now })
        target.now (seen r)) }
{
    let (path, query) = cut(target, b'?');
    match place_of(path) {
        Some(place) => show_place(alloc, page, view, place, query),
        None => show_heard(alloc, view, target),
    }
}
