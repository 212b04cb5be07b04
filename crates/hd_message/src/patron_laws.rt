//! Laws of patron messages and of the replies to them.
ghost use Rattle.std.specs.Prelude.{◌≡◌, ◌≤◌, ◌++◌, List, ℕ, Option, None, false, length};
ghost use Rattle.std.specs.List.{concat};
ghost use Rattle.std.specs.Borrow.{Bor};
ghost use Rattle.hd_message.specs.CheckinReplies.{checkin_layout};
ghost use Rattle.hd_message.specs.ItemReplies.{item_text};
ghost use Rattle.hd_message.specs.PatronReading.{HasNoPatronCode, IsPatronMessage, IsReading};
ghost use Rattle.hd_message.specs.PatronReading.{IsStandardReading, IsUnreadablePatron};
ghost use Rattle.hd_message.specs.PatronReplies.{IsCutAtItem};
ghost use Rattle.hd_message.specs.Repeated.{patron_bytes, unreadable_patron_bytes};
ghost use Rattle.hd_message.specs.SorterReplies.{IsSameReturn, sorter_item_text, sorter_layout};
ghost use Rattle.hd_message.specs.SorterReplies.{transit_fields};
ghost use Rattle.hd_message.specs.WrittenPatrons.{IsPatronReadBack, IsPatronWritable, PatronValues};
ghost use Rattle.hd_message.specs.declared.patron_kind.PatronKind.{PatronKind};
ghost use Rattle.hd_message.specs.declared.patron_reading.Reading.{Reading};
ghost use Rattle.hd_message.specs.declared.patron_request.PatronRequest.{PatronRequest};
ghost use Rattle.hd_message.specs.declared.patron_request.UnreadablePatron.{UnreadablePatron};
ghost use Rattle.hd_message.specs.declared.profile.Profile.{Profile};
ghost use Rattle.hd_message.specs.declared.reply.CheckinOutcome.TheVariants as OfCheckin;
ghost use Rattle.hd_message.specs.declared.reply.CheckinReply.{CheckinReply};
ghost use Rattle.hd_message.specs.declared.reply.Whereabouts.TheVariants as OfReturn;
ghost use Rattle.hd_message.specs.declared.sorter_reply.Destination.TheVariants as OfSorting;
ghost use Rattle.hd_message.specs.declared.sorter_reply.Recipient.{Recipient};
ghost use Rattle.hd_message.specs.declared.sorter_reply.SorterItemReply.{SorterItemReply};
ghost use Rattle.hd_message.specs.declared.sorter_reply.SorterReply.{SorterReply};

/// Where patron messages aren't read, a body is read as just what `read` answers; where they are, so is each
/// body that has no code of one.
pub fn standard_bodies_are_read_as_before()
    ensures off { (profile : Profile) (body : List ℕ) (reading : Reading) → profile.patron_messages ≡ false →
        ((IsReading profile body reading → IsStandardReading body reading)
        × (IsStandardReading body reading → IsReading profile body reading)) }
    ensures on { (profile : Profile) (body : List ℕ) (reading : Reading) → HasNoPatronCode body →
        ((IsReading profile body reading → IsStandardReading body reading)
        × (IsStandardReading body reading → IsReading profile body reading)) }
{}

/// A body that is read as a patron message isn't an unreadable one.
pub fn patron_requests_are_readable()
    ensures { (body : List ℕ) (request : PatronRequest) (message : UnreadablePatron) →
        IsPatronMessage body request → ¬ IsUnreadablePatron body message }
{}

/// The patron that a patron message names has at most as many bytes as its body.
pub fn named_patrons_fit_their_body()
    ensures request { (body : List ℕ) (request : PatronRequest) → IsPatronMessage body request →
        patron_bytes request ≤ length body }
    ensures unreadable { (body : List ℕ) (message : UnreadablePatron) → IsUnreadablePatron body message →
        unreadable_patron_bytes message ≤ length body }
{}

/// What a terminal writes for a patron message is read as a request with just its values, and as no other
/// patron message: whatever fields it has, in whatever order, if AA is one of them.
pub fn patron_requests_are_read_back()
    ensures { (kind : PatronKind) (v : PatronValues) → IsPatronWritable v → IsPatronReadBack kind v }
{}

/// A list is cut at a whole item, and as late as the room allows.
pub fn lists_are_cut_at_an_item()
    ensures { (code : List ℕ) (room : ℕ) (names : List (Bor (List ℕ))) → IsCutAtItem code room names }
{}

/// With sorter fields the reply to a return is the same as without them where the copy is on its open shelf;
/// where it is in transit, some fields follow. The reply to a question about a copy that is for nobody is the
/// same.
pub fn sorter_fields_are_added()
    ensures shelf { (reply : SorterReply) (plain : CheckinReply) → IsSameReturn reply plain →
        concat (sorter_layout reply OfSorting.OpenShelf)
        ≡ concat (checkin_layout plain (OfCheckin.Returned reply.home reply.title OfReturn.OpenShelf)) }
    ensures transit { (reply : SorterReply) (plain : CheckinReply) (branch : Bor (List ℕ))
        (recipient : Option Recipient) → IsSameReturn reply plain →
        concat (sorter_layout reply (OfSorting.Transit branch recipient))
        ≡ concat (checkin_layout plain (OfCheckin.Returned reply.home reply.title (OfReturn.Transit branch)))
        ++ transit_fields branch.now recipient }
    ensures item { (reply : SorterItemReply) → reply.recipient ≡ None →
        sorter_item_text reply ≡ item_text reply.item }
{}
