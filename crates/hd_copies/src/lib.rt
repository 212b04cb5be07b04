//! Where each copy of the library is.
#![tactic(auto)]

mod copies;
mod indexes;

pub use crate::copies::Copies;
pub use hd_catalogue::Catalogue;
pub use hd_loans::LentCopies;
pub use hd_rules::{BranchNo, CopyNo, CopyState, HoldKind, PatronNo, TitleNo};
