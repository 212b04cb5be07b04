//! The messages of SIP2 2.00: requests as they are read from the body of a message, and the texts of replies.
#![tactic(auto)]

mod appending;
mod checkin_replies;
mod days;
mod hold;
mod hold_replies;
mod information_replies;
mod item_replies;
mod kind;
mod laws;
mod loan_replies;
mod messages;
mod part;
mod patron_kind;
mod patron_laws;
mod patron_messages;
mod patron_reading;
mod patron_replies;
mod patron_reply;
mod patron_request;
mod patron_table;
mod profile;
mod reading;
mod reply;
mod request;
mod sorter_replies;
mod sorter_reply;
mod table;
mod unreadable;
mod values;
mod writing;

pub use crate::kind::DeskKind;
pub use crate::laws::{
    repeated_values_fit_their_body, replies_are_short, requests_are_read_back,
    requests_are_readable,
};
pub use crate::patron_kind::PatronKind;
pub use crate::patron_laws::{
    lists_are_cut_at_an_item, named_patrons_fit_their_body, patron_requests_are_read_back,
    patron_requests_are_readable, sorter_fields_are_added, standard_bodies_are_read_as_before,
};
pub use crate::patron_reading::{Reading, read_with};
pub use crate::patron_reply::{
    CardReply, Counts, ItemList, KnownPatron, PasswordValidity, PatronFlags,
    PatronInformationOutcome, PatronInformationReply, PatronReply, PatronStatusOutcome,
    PatronStatusReply, RenewAllOutcome, RenewAllReply,
};
pub use crate::patron_request::{
    CardRequest, PatronInformationRequest, PatronRequest, PatronStatusRequest, UnreadablePatron,
};
pub use crate::profile::Profile;
pub use crate::reading::read;
pub use crate::reply::{
    CheckinOutcome, CheckinReply, Circulation, HoldOutcome, HoldReply, ItemOutcome, ItemReply,
    LoanOutcome, LoanReply, LoginReply, Reply, StatusReply, Whereabouts,
};
pub use crate::request::{
    CheckinRequest, CheckoutRequest, HoldRequest, ItemRequest, LoginRequest, Mode, RenewRequest,
    Request, Wanted, Wishes,
};
pub use crate::sorter_reply::{Destination, Recipient, SorterItemReply, SorterReply};
pub use crate::unreadable::{Unreadable, UnreadableMessage};
pub use crate::writing::write;
