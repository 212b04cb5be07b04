//! Requests: what a terminal asks for.

/// What a hold message asks for (SIP2 2.00, Hold, hold mode).
#[derive(Clone, Copy, Debug, PartialEq, Eq)]
pub enum Mode {
    /// `+`: a new hold.
    Add,
    /// `-`: the end of a hold.
    Delete,
    /// `*`: other wishes for a hold that there is.
    Change,
}

/// Which copies a hold admits, where the message says so (SIP2 2.00, hold type, BY).
#[derive(Clone, Copy, Debug, PartialEq, Eq)]
pub enum Wanted {
    /// BY 2: any copy of the title.
    AnyCopy,
    /// BY 3: the copy of AB alone.
    OneCopy,
    /// BY 4: the copies whose home is the pickup branch.
    AtBranch,
}

/// What an add or a change of a hold wishes for. Its values are slices of the body.
#[derive(Clone, Copy)]
pub struct Wishes<'a> {
    /// BY; nothing where it is absent, empty, blank or `1`.
    pub wanted: Option<Wanted>,
    /// BS, the pickup branch; nothing where it is absent or empty.
    pub pickup: Option<&'a [u8]>,
    /// BW, the expiration date; nothing where it is absent, empty or 18 blanks.
    pub expiry: Option<&'a [u8]>,
}

/// A hold message (15). Its values are slices of the body.
#[derive(Clone, Copy)]
pub struct HoldRequest<'a> {
    /// The hold mode.
    pub mode: Mode,
    /// BI: whether the message takes back an earlier one: a deletion an addition, an addition a deletion, and
    /// a change a change.
    pub cancels: bool,
    /// The 18 bytes of the transaction date.
    pub date: &'a [u8],
    /// AA, the patron identifier.
    pub patron: &'a [u8],
    /// AB, the item identifier; nothing where it is absent or empty.
    pub copy: Option<&'a [u8]>,
    /// AJ, the title identifier; nothing where it is absent or empty.
    pub title: Option<&'a [u8]>,
    /// There are none in a delete and in a cancellation.
    pub wishes: Option<Wishes<'a>>,
}

/// A login (93). Its values are slices of the body, as are those of the messages below.
#[derive(Clone, Copy)]
pub struct LoginRequest<'a> {
    /// Whether both algorithms are `0`: name and password are written as they are.
    pub clear: bool,
    /// CN, the login user identifier.
    pub name: &'a [u8],
    /// CO, the login password.
    pub password: &'a [u8],
}

/// A checkout (11).
#[derive(Clone, Copy)]
pub struct CheckoutRequest<'a> {
    /// Renewal policy: whether the message may renew a loan of the patron.
    pub renews: bool,
    /// The 18 bytes of the transaction date.
    pub date: &'a [u8],
    /// The 18 bytes of the nb due date where the checkout took place off-line: no block is `Y`, and it
    /// cancels nothing.
    pub due: Option<&'a [u8]>,
    /// AA, the patron identifier; it may be empty.
    pub patron: &'a [u8],
    /// AB, the item identifier; it may be empty.
    pub copy: &'a [u8],
    /// BI: whether the message cancels an earlier checkin.
    pub cancels: bool,
}

/// A checkin (09).
#[derive(Clone, Copy)]
pub struct CheckinRequest<'a> {
    /// The 18 bytes of the transaction date.
    pub date: &'a [u8],
    /// AB, the item identifier; it may be empty.
    pub copy: &'a [u8],
    /// AP, the current location; nothing where it is absent or empty.
    pub branch: Option<&'a [u8]>,
    /// BI: whether the message cancels an earlier checkout.
    pub cancels: bool,
}

/// A renewal (29).
#[derive(Clone, Copy)]
pub struct RenewRequest<'a> {
    /// The 18 bytes of the transaction date.
    pub date: &'a [u8],
    /// AA, the patron identifier; it may be empty.
    pub patron: &'a [u8],
    /// AB, the item identifier; it may be empty.
    pub copy: &'a [u8],
    /// AJ, the title identifier; nothing where it is absent or empty.
    pub title: Option<&'a [u8]>,
    /// BI: whether the message cancels an earlier renewal.
    pub cancels: bool,
}

/// A question about a copy (17).
#[derive(Clone, Copy)]
pub struct ItemRequest<'a> {
    /// The 18 bytes of the transaction date.
    pub date: &'a [u8],
    /// AB, the item identifier; it may be empty.
    pub copy: &'a [u8],
}

/// A message as it is read.
#[derive(Clone, Copy)]
pub enum Request<'a> {
    /// 93, Login.
    Login(LoginRequest<'a>),
    /// 99, SC Status.
    Status,
    /// 11, Checkout.
    Checkout(CheckoutRequest<'a>),
    /// 09, Checkin.
    Checkin(CheckinRequest<'a>),
    /// 15, Hold.
    Hold(HoldRequest<'a>),
    /// 29, Renew.
    Renew(RenewRequest<'a>),
    /// 17, Item Information.
    Item(ItemRequest<'a>),
    /// 97, Request ACS Resend.
    Resend,
    /// Another message, or a body shorter than a code.
    Unsupported,
}
