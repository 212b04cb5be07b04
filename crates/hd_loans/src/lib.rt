//! The loans of copies: how many each patron has, and which.
#![tactic(auto)]

mod lent;
mod link;
mod linked;
mod links;
mod loans;

pub use crate::lent::LentCopies;
pub use crate::loans::Loans;
pub use hd_rules::Loan;
