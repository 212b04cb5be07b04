//! Writing the reply to a question what a patron has: its list is cut where the reply has no more room.
ghost use Rattle.std.specs.Prelude.{◌≡◌, ◌+◌, ◌<◌, ◌≤◌, ◌++◌, OnOk, OnErr, length, vec_len};
ghost use Rattle.std.specs.Prelude.{vec_capacity};
ghost use Rattle.std.specs.List.{concat, flat_map};
ghost use Rattle.hd_message.specs.Fields.{field_text};
ghost use Rattle.hd_message.specs.Part.{part_text};
ghost use Rattle.hd_message.specs.PatronReplies.{information_layout, information_refused, information_text};
ghost use Rattle.hd_message.specs.PatronReplies.{items_text, list_given, list_text, with_list};

use crate::appending::{append, put_field};
use crate::part::Part;
use crate::patron_replies::{REFUSED_FLAGS, flags_text, password_part};
use crate::patron_reply::{
    Counts, ItemList, KnownPatron, PatronInformationOutcome, PatronInformationReply,
};
use hd_rules::{Refusal, Summary};
use std::alloc::{AllocError, Allocator};

/// The most bytes of a reply, without trailer and carriage return.
const LONGEST_REPLY: usize = 2038;

/// Appends the text of the reply to a question what a patron has, whole or not at all.
pub(crate) fn write_information<A: Allocator>(
    reply: &PatronInformationReply<'_>,
    out: &mut Vec<u8, A>,
) -> Result<(), AllocError>
    ensures ok { OnOk result (out.new.items
        ≡ out.old.items ++ information_text reply.now reply.now.outcome) }
    ensures err { OnErr result (out.new.items ≡ out.old.items) }
    ensures full { OnErr result (vec_capacity out.old
        < vec_len out.old + length (information_text reply.now reply.now.outcome)) }
    ensures capacity { vec_capacity out.old ≤ vec_capacity out.new }
{
    match reply.outcome {
        PatronInformationOutcome::Known {
            patron,
            counts,
            limit,
            list,
        } => {
            let front = information(reply, &patron, &counts, limit);
            append_with_list(out, &front, list)
        }
        PatronInformationOutcome::Refused { refusal } => append(out, &refused(reply, refusal)),
    }
}

/// The parts of the reply before its list.
fn information<'a>(
    reply: &PatronInformationReply<'a>,
    patron: &KnownPatron<'a>,
    counts: &Counts,
    limit: u32,
) -> [Part<'a>; 15]
    ensures { flat_map part_text result
        ≡ concat (information_layout reply.now patron.now counts.now limit) }
{
    [
        Part::Text(b"64"),
        Part::Text(flags_text(patron.flags)),
        Part::Text(reply.language),
        Part::Text(reply.date),
        Part::Count(counts.hold_items),
        Part::Count(counts.overdue_items),
        Part::Count(counts.charged_items),
        Part::Text(b"00000000"),
        Part::Count(counts.unavailable_holds),
        Part::Field(*b"AO", reply.institution),
        Part::Field(*b"AA", reply.patron),
        Part::Field(*b"AE", patron.name),
        Part::Limit(limit),
        Part::Field(*b"BL", b"Y"),
        password_part(patron.password),
    ]
}

/// The parts of the reply to a question that is refused.
fn refused<'a>(reply: &PatronInformationReply<'a>, refusal: Refusal) -> [Part<'a>; 10]
    ensures { flat_map part_text result ≡ concat (information_refused reply.now refusal) }
{
    [
        Part::Text(b"64"),
        REFUSED_FLAGS,
        Part::Text(reply.language),
        Part::Text(reply.date),
        Part::Text(b"000000000000000000000000"),
        Part::Field(*b"AO", reply.institution),
        Part::Field(*b"AA", reply.patron),
        Part::Field(*b"AE", b""),
        Part::Field(*b"BL", b"N"),
        Part::Refused(refusal),
    ]
}

/// Appends parts, and as many items of a list as the reply has room for, all of it or nothing.
fn append_with_list<A: Allocator>(
    out: &mut Vec<u8, A>,
    front: &[Part<'_>],
    list: Option<ItemList<'_>>,
) -> Result<(), AllocError>
    ensures ok { OnOk result (out.new.items
        ≡ out.old.items ++ with_list (flat_map part_text front.now) list.entry) }
    ensures err { OnErr result (out.new.items ≡ out.old.items) }
    ensures full { OnErr result (vec_capacity out.old
        < vec_len out.old + length (with_list (flat_map part_text front.now) list.entry)) }
    ensures capacity { vec_capacity out.old ≤ vec_capacity out.new }
{
    let start = out.len();
    append(out, front)?;
    let room = LONGEST_REPLY.saturating_sub(out.len() - start);
    if let Err(error) = append_given(out, room, list) {
        out.truncate(start);
        return Err(error);
    }
    Ok(())
}

/// Appends as many items of a list, if there is one, as there is room for, all of these or none.
fn append_given<A: Allocator>(
    out: &mut Vec<u8, A>,
    room: usize,
    list: Option<ItemList<'_>>,
) -> Result<(), AllocError>
    ensures ok { OnOk result (out.new.items ≡ out.old.items ++ list_given room list.entry) }
    ensures err { OnErr result (out.new.items ≡ out.old.items) }
    ensures full { OnErr result (vec_capacity out.old
        < vec_len out.old + length (list_given room list.entry)) }
    ensures capacity { vec_capacity out.old ≤ vec_capacity out.new }
{
    match list {
        None => Ok(()),
        Some(list) => append_list(out, room, list.summary, list.names),
    }
}

/// Appends as many items of a list as there is room for, all of these or none.
fn append_list<A: Allocator>(
    out: &mut Vec<u8, A>,
    room: usize,
    summary: Summary,
    names: &[&[u8]],
) -> Result<(), AllocError>
    ensures ok { OnOk result (out.new.items ≡ out.old.items ++ list_text room summary names.now) }
    ensures err { OnErr result (out.new.items ≡ out.old.items) }
    ensures full { OnErr result (vec_capacity out.old
        < vec_len out.old + length (list_text room summary names.now)) }
    ensures capacity { vec_capacity out.old ≤ vec_capacity out.new }
{
    match summary {
        Summary::HoldItems => append_items(out, room, *b"AS", names),
        Summary::OverdueItems => append_items(out, room, *b"AT", names),
        Summary::ChargedItems => append_items(out, room, *b"AU", names),
        Summary::UnavailableHolds => append_items(out, room, *b"CD", names),
        Summary::Empty => Ok(()),
    }
}

/// Appends a field for each name, as many as there is room for, all of these or none.
fn append_items<A: Allocator>(
    out: &mut Vec<u8, A>,
    room: usize,
    code: [u8; 2],
    names: &[&[u8]],
) -> Result<(), AllocError>
    ensures ok { OnOk result (out.new.items ≡ out.old.items ++ items_text code room names.now) }
    ensures err { OnErr result (out.new.items ≡ out.old.items) }
    ensures full { OnErr result (vec_capacity out.old
        < vec_len out.old + length (items_text code room names.now)) }
    ensures capacity { vec_capacity out.old ≤ vec_capacity out.new }
{
    let start = out.len();
    let mut left = room;
    for name in names {
        let Some(rest) = left.checked_sub(item_size(code, name)) else {
            return Ok(());
        };
        if let Err(error) = put_field(out, code, name) {
            out.truncate(start);
            return Err(error);
        }
        left = rest;
    }
    Ok(())
}

/// How many bytes an item has: those of its field.
fn item_size(code: [u8; 2], name: &[u8]) -> usize
    ensures { result ≡ length (field_text code name.now) }
{
    code.len() + name.len() + 1
}
