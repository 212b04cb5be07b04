//! Messages of the rows and the replies to them, each with its carriage return.

/// A login as `t1`.
pub(crate) const LOGIN_1: &[u8] = b"9300CNt1|COpw|\r";

/// A login as `t2`.
pub(crate) const LOGIN_2: &[u8] = b"9300CNt2|COpw|\r";

/// The reply to a login that is taken.
pub(crate) const LOGGED_IN: &[u8] = b"941\r";

/// The hold of any copy of `ta` by `p1`, to be fetched at `north`.
pub(crate) const HOLD_1: &[u8] = b"15+20260301    100000BSnorth|BY2|AOlib|AAp1|AJta|\r";

/// The same by `p2`.
pub(crate) const HOLD_2: &[u8] = b"15+20260301    100000BSnorth|BY2|AOlib|AAp2|AJta|\r";

/// The reply to the hold of `p1` where it comes first.
pub(crate) const HELD_1_FIRST: &[u8] = b"161Y20260301    100000BR1|BSnorth|AOlib|AAp1|AJta|\r";

/// The same where it comes second.
pub(crate) const HELD_1_SECOND: &[u8] = b"161Y20260301    100000BR2|BSnorth|AOlib|AAp1|AJta|\r";

/// The reply to the hold of `p2` where it comes first.
pub(crate) const HELD_2_FIRST: &[u8] = b"161Y20260301    100000BR1|BSnorth|AOlib|AAp2|AJta|\r";

/// The same where it comes second.
pub(crate) const HELD_2_SECOND: &[u8] = b"161Y20260301    100000BR2|BSnorth|AOlib|AAp2|AJta|\r";

/// What `ta`'s first copy is.
pub(crate) const ITEM: &[u8] = b"1720260301    100000AOlib|ABa1|\r";

/// The reply where it stands on its open shelf, and one has a hold of its title.
pub(crate) const ON_SHELF_HELD: &[u8] =
    b"1803000120260301    100000CF1|ABa1|AJta|AQnorth|APnorth|\r";
