//! Laws of requests and replies.
ghost use Rattle.std.specs.Prelude.{◌≤◌, List, ℕ, length};
ghost use Rattle.hd_message.specs.Grammar.{IsReadBack, body_of};
ghost use Rattle.hd_message.specs.Lengths.{IsBounded};
ghost use Rattle.hd_message.specs.Reading.{IsRequest, IsUnreadable};
ghost use Rattle.hd_message.specs.Repeated.{readable_bytes, repeated_bytes};
ghost use Rattle.hd_message.specs.WrittenHolds.{HoldValues, IsHoldWritable, StatesHold, hold_fields};
ghost use Rattle.hd_message.specs.WrittenHolds.{hold_fixed};
ghost use Rattle.hd_message.specs.WrittenMessages.{CheckinValues, CheckoutValues, IsCheckinWritable};
ghost use Rattle.hd_message.specs.WrittenMessages.{IsCheckoutWritable, IsItemWritable, IsLoginWritable};
ghost use Rattle.hd_message.specs.WrittenMessages.{IsRenewWritable, ItemValues, LoginValues, RenewValues};
ghost use Rattle.hd_message.specs.WrittenMessages.{StatesCheckin, StatesCheckout, StatesItem, StatesLogin};
ghost use Rattle.hd_message.specs.WrittenMessages.{StatesRenew, checkin_fields, checkin_fixed};
ghost use Rattle.hd_message.specs.WrittenMessages.{checkout_fields, checkout_fixed, item_fields, item_fixed};
ghost use Rattle.hd_message.specs.WrittenMessages.{login_fields, login_fixed, renew_fields, renew_fixed};
ghost use Rattle.hd_message.specs.declared.reply.Reply.{Reply};
ghost use Rattle.hd_message.specs.declared.request.Request.{Request};
ghost use Rattle.hd_message.specs.declared.unreadable.Unreadable.{Unreadable};

/// A reply that prints names of the catalogue (1 to 60 bytes each), dates, numbers of 64 bits and at most
/// 1,024 bytes of a message's values has at most 2,038 bytes, so with trailer and carriage return at most
/// 2,048.
pub fn replies_are_short()
    ensures { (reply : Reply) → IsBounded reply }
{}

/// The values of a message that its reply repeats don't overlap in its body: together they have at most as
/// many bytes as the body.
pub fn repeated_values_fit_their_body()
    ensures request { (body : List ℕ) (request : Request) → IsRequest body request →
        repeated_bytes request ≤ length body }
    ensures unreadable { (body : List ℕ) (message : Unreadable) → IsUnreadable body message →
        readable_bytes message ≤ length body }
{}

/// What a terminal writes for a message, with these fields in one order and no others, is read as a request
/// with just its values, and as nothing else; no value has a bar.
pub fn requests_are_read_back()
    ensures checkout { (v : CheckoutValues) → IsCheckoutWritable v →
        IsReadBack (body_of (checkout_fixed v) (checkout_fields v)) (StatesCheckout v) }
    ensures checkin { (v : CheckinValues) → IsCheckinWritable v →
        IsReadBack (body_of (checkin_fixed v) (checkin_fields v)) (StatesCheckin v) }
    ensures hold { (v : HoldValues) → IsHoldWritable v →
        IsReadBack (body_of (hold_fixed v) (hold_fields v)) (StatesHold v) }
    ensures renew { (v : RenewValues) → IsRenewWritable v →
        IsReadBack (body_of (renew_fixed v) (renew_fields v)) (StatesRenew v) }
    ensures item { (v : ItemValues) → IsItemWritable v →
        IsReadBack (body_of (item_fixed v) (item_fields v)) (StatesItem v) }
    ensures login { (v : LoginValues) → IsLoginWritable v →
        IsReadBack (body_of (login_fixed v) (login_fields v)) (StatesLogin v) }
{}

/// A body that is read as a request isn't unreadable.
pub fn requests_are_readable()
    ensures { (body : List ℕ) (request : Request) (message : Unreadable) →
        IsRequest body request → ¬ IsUnreadable body message }
{}
