//! What extends the standard messages.
ghost use Rattle.std.specs.Prelude.{◌≡◌, ◌||◌, IfOk, is_some, option_and_then};
ghost use Rattle.hd_library.specs.PatronsFiles.{AreOfFile, ArePatronsAt};

use crate::fault::SetupFault;
use crate::reading::read_file;
use hd_catalogue::Catalogue;
use hd_command_line::Extended;
use hd_session::{Extensions, Patrons, Profile};

/// Whether anything extends the standard messages.
pub fn is_extended(order: &Extended<'_>) -> bool
    ensures { result ≡ (is_some order.now.kiosks || order.now.has_sorter_fields) }
{
    order.kiosks.is_some() || order.has_sorter_fields
}

/// What extends the standard messages. The patrons' file, where one is named, is read over its catalogue.
///
/// # Errors
/// The patrons' file can't be read, or is refused.
pub fn extensions_of(
    rt: &HostRuntime,
    order: &Extended<'_>,
    catalogue: &Catalogue,
) -> Result<Extensions, SetupFault>
    ensures kiosks { IfOk result (λ e. e.profile.patron_messages ≡ is_some order.now.kiosks) }
    ensures sorters { IfOk result (λ e. e.profile.sorter_fields ≡ order.now.has_sorter_fields) }
    ensures patrons { IfOk result (λ e. ArePatronsAt catalogue.now
        (option_and_then (λ kiosks. kiosks.patrons) order.now.kiosks) e.patrons) }
{
    let profile = Profile {
        patron_messages: order.kiosks.is_some(),
        sorter_fields: order.has_sorter_fields,
    };
    let patrons = patrons_at(rt, patrons_path(order), catalogue)?;
    Ok(Extensions::new(profile, patrons))
}

/// The path of the patrons' file, where one is named.
fn patrons_path<'a>(order: &Extended<'a>) -> Option<&'a str>
    ensures { result ≡ option_and_then (λ kiosks. kiosks.patrons) order.now.kiosks }
{
    match order.kiosks {
        Some(kiosks) => kiosks.patrons,
        None => None,
    }
}

/// What the patrons' file says that may be at a path.
///
/// # Errors
/// It can't be read, or is refused.
fn patrons_at(
    rt: &HostRuntime,
    path: Option<&str>,
    catalogue: &Catalogue,
) -> Result<Patrons, SetupFault>
    ensures { IfOk result (ArePatronsAt catalogue.now path.entry) }
{
    match path {
        Some(path) => read_patrons(rt, path, catalogue),
        None => Ok(Patrons::none()),
    }
}

/// What the patrons' file at a path says of the patrons of a catalogue.
///
/// # Errors
/// It can't be read, or is refused.
pub fn read_patrons(
    rt: &HostRuntime,
    path: &str,
    catalogue: &Catalogue,
) -> Result<Patrons, SetupFault>
    ensures { IfOk result (AreOfFile catalogue.now) }
{
    let file = read_file(rt, "patrons", path)?;
    match Patrons::read(rt.alloc(), catalogue, file.as_slice()) {
        Ok(patrons) => Ok(patrons),
        Err(fault) => Err(SetupFault::Patrons(fault)),
    }
}
