//! The first line of a catalogue file.
ghost use Rattle.std.specs.Prelude.{◌≡◌, ◌≤◌, IfErr, IfOk, None, OnOk, Some, option_map};
ghost use Rattle.hd_rules.specs.declared.limits.TheConstants.{MOST_COMMANDS};
ghost use Rattle.hd_catalogue.specs.Headings.{said_by};
ghost use Rattle.hd_catalogue.specs.Lines.{heading_cause, heading_of, settings_of, version_of};

use crate::cause::Cause;
use crate::facts::{Settings, Version};
use crate::text::{command_limit, is_letter, is_name, offset};
use crate::values::Values;

/// What the first line says.
#[derive(Clone, Copy)]
pub(crate) struct Heading<'a> {
    pub(crate) version: Version,
    pub(crate) institution: &'a [u8],
    pub(crate) offset: &'a [u8],
    pub(crate) limit: &'a [u8],
}

/// The values of a first line, if it is one.
pub(crate) fn read_heading(mut values: Values<'_>) -> Option<Heading<'_>>
    ensures { option_map said_by result ≡ heading_of values.entry }
{
    let kind = values.take()?;
    if !is_letter(b'H', kind) {
        return None;
    }
    let (number, institution, offset, limit) = values.four()?;
    let version = version(number)?;
    Some(Heading {
        version,
        institution,
        offset,
        limit,
    })
}

/// What the first line says besides the institution.
pub(crate) fn settings(long: bool, heading: Heading<'_>) -> Result<Settings, Cause>
    ensures settings { IfOk result (λ settings. settings ≡ settings_of (said_by heading.entry)) }
    ensures some_command { IfOk result (λ settings. 1 ≤ settings.command_limit) }
    ensures commands { IfOk result (λ settings. settings.command_limit ≤ MOST_COMMANDS) }
    ensures passes { OnOk result (heading_cause long (Some (said_by heading.entry)) ≡ None) }
    ensures refused { IfErr result (λ cause. heading_cause long (Some (said_by heading.entry)) ≡ Some cause) }
{
    if long || !is_name(heading.institution) {
        return Err(Cause::Text);
    }
    let Some(offset) = offset(heading.offset) else {
        return Err(Cause::Number);
    };
    let Some(command_limit) = command_limit(heading.limit) else {
        return Err(Cause::Number);
    };
    Ok(Settings {
        version: heading.version,
        offset,
        command_limit,
    })
}

/// The version that a first line names.
fn version(value: &[u8]) -> Option<Version>
    ensures { result ≡ version_of value.now }
{
    if value == b"1".as_slice() {
        Some(Version::One)
    } else if value == b"2".as_slice() {
        Some(Version::Two)
    } else {
        None
    }
}
