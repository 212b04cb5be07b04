//! The texts of refusals.
ghost use Rattle.std.specs.Prelude.{◌≡◌};
ghost use Rattle.hd_rules.specs.RefusalTexts.{words_of};

use crate::replies::Refusal;

impl Refusal {
    /// The words that AF prints of the refusal (docs/protocol.md, "Refusals"), without its number.
    pub fn words(self) -> &'static [u8]
        ensures { result.now ≡ words_of self }
    {
        match self {
            Refusal::NotLoggedIn => b"NOT LOGGED IN",
            Refusal::Unreadable => b"MESSAGE UNREADABLE",
            Refusal::BadDate => b"DATE UNREADABLE",
            Refusal::UnknownPatron => b"UNKNOWN PATRON",
            Refusal::UnknownItem => b"UNKNOWN ITEM",
            Refusal::UnknownTitle => b"UNKNOWN TITLE",
            Refusal::UnknownBranch => b"UNKNOWN BRANCH",
            Refusal::HoldExists => b"HOLD EXISTS",
            Refusal::NoSuchHold => b"NO SUCH HOLD",
            Refusal::HoldHasCopy => b"HOLD HAS ITS COPY",
            Refusal::ExpiryPassed => b"EXPIRY PASSED",
            Refusal::OnLoan => b"ON LOAN",
            Refusal::KeptForAnother => b"KEPT FOR ANOTHER",
            Refusal::InTransit => b"IN TRANSIT",
            Refusal::LoanLimit => b"LOAN LIMIT",
            Refusal::NotOnLoan => b"NOT ON LOAN TO PATRON",
            Refusal::NotRenewable => b"NOT RENEWABLE",
            Refusal::DueRange => b"DUE DATE OUT OF RANGE",
            Refusal::JournalFull => b"JOURNAL FULL",
            Refusal::NothingToCancel => b"NOTHING TO CANCEL",
            Refusal::Depends { .. } => b"DEPENDS",
        }
    }
}
