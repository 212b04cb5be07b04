//! What is asked, and what it came to, part by part.
ghost use Rattle.std.specs.Prelude.{◌≡◌, Some};
ghost use Rattle.hd_list_pages.specs.Parts.{asked_parts, due_told, number_told, outcome_word, reply_due};
ghost use Rattle.hd_list_pages.specs.Parts.{told_parts, why_refused};

use crate::words::Word;
use hd_ask_parts::{Parts, cancel_parts, command_parts};
use hd_rules::{Asked, BranchNo, CopyNo, Day, PatronNo, Refusal, Reply, TitleNo, TurnReply};

/// What is asked, part by part: nothing where a part doesn't apply.
#[derive(Clone, Copy)]
pub(crate) struct AskedParts {
    pub(crate) word: Word,
    pub(crate) day: Option<Day>,
    pub(crate) patron: Option<PatronNo>,
    pub(crate) copy: Option<CopyNo>,
    pub(crate) title: Option<TitleNo>,
    pub(crate) branch: Option<BranchNo>,
    pub(crate) until: Option<Day>,
}

/// What is asked.
#[tactic(auto, unfolding(crate::specs::Parts::asked_parts))]
pub(crate) fn asked_parts(asked: &Asked) -> AskedParts
    ensures { result ≡ asked_parts asked.now }
{
    match asked {
        Asked::Command(command) => told_parts(&command_parts(command)),
        Asked::Cancel(what) => told_parts(&cancel_parts(what)),
        Asked::Item(copy) => AskedParts {
            word: Word::Item,
            day: None,
            patron: None,
            copy: Some(*copy),
            title: None,
            branch: None,
            until: None,
        },
    }
}

/// What a command or a cancellation asks, as it is told: what a hold admits stands in the command's cells.
fn told_parts(parts: &Parts) -> AskedParts
    ensures { result ≡ told_parts parts.now }
{
    AskedParts {
        word: Word::Act(parts.act),
        day: parts.day,
        patron: parts.patron,
        copy: parts.copy,
        title: parts.title,
        branch: parts.branch,
        until: parts.until,
    }
}

/// What a turn came to, in one word.
pub(crate) fn outcome_word(reply: &TurnReply) -> Word
    ensures { result ≡ outcome_word reply.now }
{
    match reply {
        TurnReply::Done { .. } => Word::Done,
        TurnReply::Refused(_) => Word::Refused,
        TurnReply::Cancelled { .. } => Word::Cancelled,
        TurnReply::Item(_) => Word::Item,
    }
}

/// The number of the command that a reply names: the one that was done or cancelled, or that depends on the
/// target.
pub(crate) fn number_told(reply: &TurnReply) -> Option<u64>
    ensures { result ≡ number_told reply.now }
{
    match reply {
        TurnReply::Done { number, .. }
        | TurnReply::Refused(Refusal::Depends { number })
        | TurnReply::Cancelled { number } => Some(*number),
        TurnReply::Refused(_) | TurnReply::Item(_) => None,
    }
}

/// Why a turn was refused.
pub(crate) fn why_refused(reply: &TurnReply) -> Option<Refusal>
    ensures { result ≡ why_refused reply.now }
{
    match reply {
        TurnReply::Refused(refusal) => Some(*refusal),
        _ => None,
    }
}

/// The due day that a turn's reply tells.
pub(crate) fn due_told(reply: &TurnReply) -> Option<Day>
    ensures { result ≡ due_told reply.now }
{
    match reply {
        TurnReply::Done { reply, .. } => reply_due(reply),
        _ => None,
    }
}

/// The due day that the reply to a command tells.
pub(crate) fn reply_due(reply: &Reply) -> Option<Day>
    ensures { result ≡ reply_due reply.now }
{
    match reply {
        Reply::LentOrRenewed { due, .. } => Some(*due),
        _ => None,
    }
}
