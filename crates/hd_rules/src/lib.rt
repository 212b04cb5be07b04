//! The rules of the hold desk: its types, and what commands, cancellations and turns mean.
//!
//! The definitions are in `specs/`. Each law of the module `laws` is the contract of a function without a
//! body.
#![tactic(auto)]

mod ask;
mod cells;
mod commands;
mod copies;
mod equality;
mod holds;
mod laws;
mod limits;
mod numbers;
mod questions;
mod refusals;
mod replies;
mod rows;
mod turns;
mod views;

pub use crate::ask::Ask;
pub use crate::cells::{Cell, Change, Value};
pub use crate::commands::{Action, Cancel, Command, Survivor};
pub use crate::copies::{CopyState, HoldPlace, Loan, Transit};
pub use crate::equality::{same_asked, same_turn_reply};
pub use crate::holds::{Hold, HoldKind};
pub use crate::laws::{
    a_carried_desk_is_sound, a_fresh_desk_may_open, a_journal_may_grow,
    a_kept_hold_is_at_its_pickup, a_legal_journal_is_the_run_of_its_survivors, charged_are_counted,
    choice_is_the_first_candidate, commands_keep_desks_sound, commands_rest_on_their_answers,
    each_turn_is_determined, headline, kept_and_waiting_are_the_holds,
    known_rows_tell_a_known_desk, legal_journals_go_on, listed_once, place_is_the_least_free,
    rows_tell_a_sound_desk, tests_are_exact, the_first_dependent_is_the_least,
    the_target_is_the_newest, undoing_is_the_run_without,
};
pub use crate::limits::{
    MOST_BRANCHES, MOST_COMMANDS, MOST_COPIES, MOST_GIVEN, MOST_LOAN_DAYS, MOST_LOANS,
    MOST_PATRONS, MOST_RENEWALS, MOST_TERMINALS, MOST_TITLES,
};
pub use crate::numbers::{BranchNo, CopyNo, PatronNo, SeatNo, TerminalNo, TitleNo};
pub use crate::questions::{Answer, Finding, Noted, Question};
pub use crate::replies::{ItemView, Refusal, Reply, TurnReply};
pub use crate::rows::OpeningRow;
pub use crate::turns::Asked;
pub use crate::views::{Borrowing, ListItem, PatronView, Summary, TitleHold, Wanted};
pub use hd_day::Day;
