//! Lines of fields.
ghost use Rattle.std.specs.Prelude.{◌≡◌, ◌++◌, ◌∷◌, [], OnOk, decimal, map};
ghost use Rattle.std.specs.List.{join_by};
ghost use Rattle.hd_log.specs.Fields.{field_shown, fields_shown, value_shown};
ghost use Rattle.hd_log.specs.Escapes.{escaped};
ghost use Rattle.hd_log.specs.Lines.{field_text, line_text, quoted, value_text};

use crate::escaping::write_escaped;
use itoa::Buffer;
use std::alloc::AllocError;

/// What a field says.
#[derive(Clone, Copy)]
pub(crate) enum Value<'a> {
    /// A number, in decimal.
    Number(u64),
    /// A word of the log's own.
    Word(&'a [u8]),
    /// A text of any bytes, in quotes.
    Text(&'a [u8]),
}

/// A field of a line.
#[derive(Clone, Copy)]
pub(crate) struct Field<'a> {
    pub(crate) key: &'a [u8],
    pub(crate) value: Value<'a>,
}

/// Writes what a field says.
#[tactic(auto, unfolding(crate::specs::Lines::value_text))]
fn write_value(out: &mut Vec<u8>, value: &Value<'_>) -> Result<(), AllocError>
    ensures { OnOk result (out.new.items ≡ out.old.items ++ value_text (value_shown value.now)) }
{
    match *value {
        Value::Number(number) => write_number(out, number),
        Value::Word(word) => write_escaped(out, word),
        Value::Text(text) => write_quoted(out, text),
    }
}

/// Writes a number.
fn write_number(out: &mut Vec<u8>, number: u64) -> Result<(), AllocError>
    ensures { OnOk result (out.new.items ≡ out.old.items ++ escaped (decimal number)) }
{
    let mut buffer = Buffer::new();
    write_escaped(out, buffer.format(number).as_bytes())
}

/// Writes a text in quotes.
fn write_quoted(out: &mut Vec<u8>, text: &[u8]) -> Result<(), AllocError>
    ensures { OnOk result (out.new.items ≡ out.old.items ++ quoted text.now) }
{
    out.push(b'"')?;
    write_escaped(out, text)?;
    out.push(b'"')?;
    Ok(())
}

/// Writes a field.
#[tactic(auto, unfolding(crate::specs::Lines::field_text))]
fn write_field(out: &mut Vec<u8>, field: &Field<'_>) -> Result<(), AllocError>
    ensures { OnOk result (out.new.items ≡ out.old.items ++ field_text (field_shown field.now)) }
{
    write_escaped(out, field.key)?;
    out.push(b'=')?;
    write_value(out, &field.value)?;
    Ok(())
}

/// Writes fields, with blanks between them.
fn write_fields(out: &mut Vec<u8>, fields: &[Field<'_>]) -> Result<(), AllocError>
    ensures { OnOk result (out.new.items
        ≡ out.old.items ++ join_by field_text (32 ∷ []) (map field_shown fields.now)) }
{
    match fields {
        [] => Ok(()),
        [first, rest @ ..] => {
            write_field(out, first)?;
            for field in rest {
                out.push(b' ')?;
                write_field(out, field)?;
            }
            Ok(())
        }
    }
}

/// Writes a line of fields, with blanks between them and a line feed at its end.
///
/// # Errors
/// Out of memory. A beginning may be written then.
#[tactic(auto, unfolding(crate::specs::Lines::line_text))]
pub(crate) fn write_line(out: &mut Vec<u8>, fields: &[Field<'_>]) -> Result<(), AllocError>
    ensures { OnOk result (out.new.items ≡ out.old.items ++ line_text (fields_shown fields.now)) }
{
    write_fields(out, fields)?;
    out.push(b'\n')?;
    Ok(())
}
