//! The replies to questions about a patron, from what a look saw.
ghost use Rattle.std.specs.Prelude.{◌≡◌, ◌<◌, ◌+◌, ◌≤◌, List, Some, length, vec_len};
ghost use Rattle.std.specs.Prelude.{vec_capacity};
ghost use Rattle.std.specs.Option.{unwrap_or};
ghost use Rattle.hd_message.specs.Lengths.{IsPatronShort};
ghost use Rattle.hd_message.specs.Replies.{reply_text};
ghost use Rattle.hd_message.specs.declared.patron_reply.PatronReply.{PatronReply};
ghost use Rattle.hd_message.specs.declared.reply.Reply.TheVariants as reply;
ghost use Rattle.hd_rules.specs.declared.views.ListItem.{ListItem};
ghost use Rattle.hd_rules.specs.declared.views.PatronView.{PatronView};
ghost use Rattle.hd_catalogue.specs.Contents.{Contents, facts_of, patron_name};
ghost use Rattle.hd_exchange.specs.Extensions.{extensions_lent};
ghost use Rattle.hd_exchange.specs.PatronInformation.{AreNamesOf, IsListOfItems};
ghost use Rattle.hd_exchange.specs.PatronReplies.{IsLookReply};
ghost use Rattle.hd_exchange.specs.Seeing.{HasLooked};
ghost use Rattle.hd_exchange.specs.ToldPatrons.{language_told};
ghost use Rattle.hd_exchange.specs.Works.{Extends};

use crate::cards::renew_all_reply;
use crate::extensions::{Extensions, language_of};
use crate::patron_information::{information_reply, names_of};
use crate::patron_message::{PatronLook, PatronQuestion, PatronValues};
use crate::patron_reader::PatronReader;
use crate::patron_status::status_reply;
use crate::told_patrons::{counts_of, known_patron};
use crate::writing::write_reply;
use hd_catalogue::Catalogue;
use hd_message::{
    ItemList, PasswordValidity, PatronInformationOutcome, PatronReply, PatronStatusOutcome,
    RenewAllOutcome, Reply,
};
use hd_rules::{PatronView, Wanted};
use std::alloc::Allocator;

/// Appends the reply to a question about a patron, from what a look saw. The password is checked so.
pub(crate) fn write_look<A: Allocator + Copy>(
    catalogue: &Catalogue<A>,
    extensions: Option<&Extensions<A>>,
    values: &PatronValues<'_>,
    password: PasswordValidity,
    reader: &PatronReader,
    out: &mut Vec<u8, A>,
)
    requires looked { HasLooked catalogue.now values.now reader.now }
    requires language { length values.now.language.now ≡ 3 }
    requires patron { length values.now.patron.now ≤ 1024 }
    requires room { vec_len out.old + 2038 ≤ vec_capacity out.old }
    ensures { (seen : PatronView) × (told : PatronReply)
        × (reader.now.view ≡ Some seen)
        × IsLookReply catalogue.now values.now (extensions_lent extensions.entry) reader.now.look.patron
        password seen reader.now.items.items reader.now.look.question told
        × Extends out.old out.new (reply_text (reply.Patron told))
        × (length (reply_text (reply.Patron told)) ≤ 2038) }
{
    let Some(view) = &reader.view else {
        unreachable!()
    };
    let own = language_of(extensions, reader.look.patron);
    let language = spoken_language(&own, values.language);
    let names = names_of(catalogue, reader.items.as_slice());
    let reply = look_reply(
        catalogue,
        extensions,
        values,
        language,
        password,
        &reader.look,
        view,
        names.as_slice(),
    );
    write_reply(&Reply::Patron(reply), out);
}

/// The language of a patron: that of the patrons' file, where it has one, else the message's.
fn spoken_language<'a>(own: &'a Option<[u8; 3]>, message: &'a [u8]) -> &'a [u8]
    ensures { result.now ≡ unwrap_or own.now message.now }
{
    match own {
        Some(language) => language.as_slice(),
        None => message,
    }
}

/// The reply, in this language, to a question about a patron, with the password checked so. View and names
/// are those that the look saw.
fn look_reply<'a, A: Allocator + Copy>(
    catalogue: &'a Catalogue<A>,
    extensions: Option<&'a Extensions<A>>,
    values: &'a PatronValues<'a>,
    language: &'a [u8],
    password: PasswordValidity,
    look: &PatronLook,
    view: &PatronView,
    names: &'a [&'a [u8]],
) -> PatronReply<'a>
    requires known { look.now.patron < (facts_of catalogue.now).patrons }
    requires named { patron_name catalogue.now look.now.patron ≡ Some values.now.patron.now }
    requires language { language.now
        ≡ language_told (extensions_lent extensions).patrons look.now.patron values.now.language.now }
    requires three { length language.now ≡ 3 }
    requires patron { length values.now.patron.now ≤ 1024 }
    ensures reply { (items : List ListItem) → AreNamesOf catalogue.now items names.now →
        IsLookReply catalogue.now values.now (extensions_lent extensions.entry) look.now.patron password
        view.now items look.now.question result }
    ensures short { IsPatronShort result }
{
    let known = known_patron(
        catalogue,
        extensions,
        look.patron,
        password,
        view,
        values.patron,
    );
    match look.question {
        PatronQuestion::Status => {
            let outcome = PatronStatusOutcome::Known(known);
            PatronReply::Status(status_reply(catalogue, values, language, outcome))
        }
        PatronQuestion::Block => {
            let outcome = PatronStatusOutcome::NotBlocked(known);
            PatronReply::Status(status_reply(catalogue, values, language, outcome))
        }
        PatronQuestion::Information(wanted) => {
            let outcome = PatronInformationOutcome::Known {
                patron: known,
                counts: counts_of(view),
                limit: view.loan_limit,
                list: list_of(wanted, names),
            };
            PatronReply::Information(information_reply(catalogue, values, language, outcome))
        }
        PatronQuestion::RenewAll => {
            let loans = u64::from(view.charged);
            let outcome = RenewAllOutcome::NotRenewed { loans };
            PatronReply::RenewAll(renew_all_reply(catalogue, values, outcome))
        }
    }
}

/// The list of these names, if one is wanted.
fn list_of<'a>(wanted: Option<Wanted>, names: &'a [&'a [u8]]) -> Option<ItemList<'a>>
    ensures { (k : Contents) (items : List ListItem) → AreNamesOf k items names.now →
        IsListOfItems k wanted items result }
{
    match wanted {
        Some(wanted) => Some(ItemList {
            summary: wanted.summary,
            names,
        }),
        None => None,
    }
}
