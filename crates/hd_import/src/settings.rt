//! What no sheet says.

use hd_date::OffsetMinutes;

/// What no sheet says, or only some rows of one.
#[derive(Clone, Copy)]
pub struct Settings<'a> {
    /// The institution that replies carry in AO.
    pub institution: &'a str,
    /// By how many minutes local time is later than universal time.
    pub offset: OffsetMinutes,
    /// The limit of commands.
    pub commands: u32,
    /// The loan limit of a patron whose row has none.
    pub loan_limit: Option<u32>,
    /// The days of a loan of a title whose row has none.
    pub loan_days: Option<u32>,
    /// How often a loan of a title may be renewed whose row has no number.
    pub renewals: Option<u32>,
}
