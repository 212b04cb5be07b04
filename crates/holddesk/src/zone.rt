//! The time zone that a server goes by.

use crate::fault::Fault;
use crate::observing::Teller;
use hd_catalogue::OffsetMinutes;
use hd_command_line::Serve;
use hd_library::offset_now;
use hd_log::Event;
use hd_serve::Observer;
use std::time::Clock;

/// The offset that the zone of a server has now, where it is to go by one, which is told.
///
/// # Errors
/// The zone's file can't be read, or has no such offset.
pub(crate) fn zone_offset<R: Clock>(
    rt: &R,
    host: &HostRuntime,
    order: &Serve<'_>,
) -> Result<Option<OffsetMinutes>, Fault> {
    let Some(path) = order.zone else {
        return Ok(None);
    };
    let offset = offset_now(rt, host, path)?;
    let word = format!(in host.alloc(); "{:+}", offset.minutes())?;
    Teller::new(host, order.log).tell(&Event::Zone {
        file: path.as_bytes(),
        offset: word.as_bytes(),
    });
    Ok(Some(offset))
}
