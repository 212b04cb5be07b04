//! Replies to checkins and to questions about copies that say, for sorters, for whom a copy is.
use crate::reply::ItemReply;

/// For whom a copy is.
#[derive(Clone, Copy)]
pub struct Recipient<'a> {
    /// CY, the patron identifier.
    pub patron: &'a [u8],
    /// DA, the patron's name, where there is one.
    pub name: Option<&'a [u8]>,
}

/// Where a copy is after its return, and for whom.
#[derive(Clone, Copy)]
pub enum Destination<'a> {
    /// On the open shelf of its home.
    OpenShelf,
    /// On the hold shelf of the branch where it was returned.
    HoldShelf {
        /// Its place there, from 1.
        place: u32,
        /// For whom it is kept.
        recipient: Recipient<'a>,
    },
    /// In transit.
    Transit {
        /// The branch to which it goes.
        branch: &'a [u8],
        /// For whom it is on its way, if it is for somebody.
        recipient: Option<Recipient<'a>>,
    },
}

/// The reply to a checkin that is accepted and cancels nothing (10, Checkin Response), with sorter fields.
#[derive(Clone, Copy)]
pub struct SorterReply<'a> {
    /// The transaction date of the message.
    pub date: &'a [u8],
    /// AO, the institution of the catalogue.
    pub institution: &'a [u8],
    /// AB, the item identifier of the message.
    pub copy: &'a [u8],
    /// AQ, the branch that is the copy's home.
    pub home: &'a [u8],
    /// AJ, the title identifier.
    pub title: &'a [u8],
    /// The alert, CL and the sorter fields: CV, CT, CY, DA and AF.
    pub destination: Destination<'a>,
}

/// The reply to a question about a copy (18, Item Information Response), with sorter fields.
#[derive(Clone, Copy)]
pub struct SorterItemReply<'a> {
    /// What is said of the copy without sorter fields.
    pub item: ItemReply<'a>,
    /// CY and DA: for whom it is kept or on its way, if it is for somebody.
    pub recipient: Option<Recipient<'a>>,
}
