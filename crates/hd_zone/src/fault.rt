//! Why there is no offset, or no catalogue.
ghost use Rattle.std.specs.Prelude.{◌≡◌};
ghost use Rattle.hd_zone.specs.declared.fault.ReadFault.TheVariants.{Catalogue};

use hd_catalogue::CatFault;
use jiff_core::Error;
use jiff_core::error::TzifFault;
use std::fmt;

/// Why a zone's file has no offset at a moment.
#[derive(Clone, Copy, Debug, PartialEq, Eq)]
pub enum ZoneFault {
    /// It is no TZif file.
    Form(TzifFault),
    /// The moment is after the year 9999.
    Moment,
    /// The offset is no whole number of minutes, or a day or more.
    Minutes,
    /// Out of memory.
    Memory,
}

impl fmt::Display for ZoneFault {
    fn fmt<W: fmt::Write>(&self, f: &mut fmt::Formatter<W>) -> fmt::Result {
        match *self {
            ZoneFault::Form(fault) => write!(f, "{}", Error::Tzif(fault)),
            ZoneFault::Moment => f.write_str("the clock tells no time of a zone"),
            ZoneFault::Minutes => f.write_str("its offset is no number of minutes below a day"),
            ZoneFault::Memory => f.write_str("no memory"),
        }
    }
}

/// Why there is no catalogue with another offset.
#[derive(Clone, Copy, Debug, PartialEq, Eq)]
pub enum ReadFault {
    /// The file is refused.
    Catalogue(CatFault),
    /// Out of memory.
    Memory,
    /// What was written with the other offset isn't read as that. It should never be seen.
    NotMoved,
}

impl From<CatFault> for ReadFault {
    ghost from_gives = { λ fault given. given ≡ Catalogue fault };

    fn from(fault: CatFault) -> ReadFault {
        ReadFault::Catalogue(fault)
    }
}
