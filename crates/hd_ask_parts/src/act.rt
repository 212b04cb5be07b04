//! Acts, and what a hold admits, with their words.
ghost use Rattle.std.specs.Prelude.{◌≡◌};
ghost use Rattle.hd_ask_parts.specs.Acts.{act_named, act_word, admits_named, admits_word};

/// What a command or a cancellation does, without what it names.
#[derive(Clone, Copy, PartialEq, Eq, Debug)]
pub enum Act {
    /// A checkout that may not renew.
    Checkout,
    /// A checkout that renews the loan where the patron has the copy.
    CheckoutOrRenewal,
    /// A loan that took place while the terminal was off line.
    OffLine,
    /// A return.
    Checkin,
    /// The adding of a hold.
    Add,
    /// The deletion of a hold.
    Delete,
    /// The change of a hold.
    Change,
    /// A renewal.
    Renewal,
    /// The cancellation of a checkout.
    CancelCheckout,
    /// The cancellation of a return.
    CancelCheckin,
    /// The cancellation of a renewal.
    CancelRenewal,
    /// The cancellation of an adding.
    CancelAdd,
    /// The cancellation of a deletion.
    CancelDelete,
    /// The cancellation of a change.
    CancelChange,
}

/// Every act once.
const ACTS: [Act; 14] = [
    Act::Checkout,
    Act::CheckoutOrRenewal,
    Act::OffLine,
    Act::Checkin,
    Act::Add,
    Act::Delete,
    Act::Change,
    Act::Renewal,
    Act::CancelCheckout,
    Act::CancelCheckin,
    Act::CancelRenewal,
    Act::CancelAdd,
    Act::CancelDelete,
    Act::CancelChange,
];

impl Act {
    /// Its word, as a journal's file and lists of turns have it.
    pub fn word(self) -> &'static [u8]
        ensures { result.now ≡ act_word self }
    {
        match self {
            Act::Checkout => b"checkout",
            Act::CheckoutOrRenewal => b"checkout or renewal",
            Act::OffLine => b"checkout off line",
            Act::Checkin => b"checkin",
            Act::Add => b"hold",
            Act::Delete => b"delete hold",
            Act::Change => b"change hold",
            Act::Renewal => b"renewal",
            Act::CancelCheckout => b"cancel checkout",
            Act::CancelCheckin => b"cancel checkin",
            Act::CancelRenewal => b"cancel renewal",
            Act::CancelAdd => b"cancel hold",
            Act::CancelDelete => b"cancel delete hold",
            Act::CancelChange => b"cancel change hold",
        }
    }

    /// The act of a word, or `None` where it is no act's.
    #[tactic(auto, unfolding(crate::specs::Acts::act_named))]
    pub fn of_word(word: &[u8]) -> Option<Act>
        ensures { result ≡ act_named word.now }
    {
        ACTS.iter().copied().find(|act| act.word() == word)
    }
}

/// What a hold admits, without the copy.
#[derive(Clone, Copy, PartialEq, Eq, Debug)]
pub enum Admits {
    /// Any copy of the title.
    Any,
    /// One copy.
    Copy,
    /// The copies whose home is the hold's pickup branch.
    Branch,
}

/// Each of these once.
const ALL_ADMITS: [Admits; 3] = [Admits::Any, Admits::Copy, Admits::Branch];

impl Admits {
    /// Its word, as a journal's file and lists of holds have it.
    pub fn word(self) -> &'static [u8]
        ensures { result.now ≡ admits_word self }
    {
        match self {
            Admits::Any => b"any",
            Admits::Copy => b"copy",
            Admits::Branch => b"branch",
        }
    }

    /// What a word says that a hold admits, or `None` where it says nothing.
    #[tactic(auto, unfolding(crate::specs::Acts::admits_named))]
    pub fn of_word(word: &[u8]) -> Option<Admits>
        ensures { result ≡ admits_named word.now }
    {
        ALL_ADMITS
            .iter()
            .copied()
            .find(|admits| admits.word() == word)
    }
}
