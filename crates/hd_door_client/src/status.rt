//! How a server stands, for people.
ghost use Rattle.std.specs.Prelude.{◌≡◌, IfOk, string_bytes};
ghost use Rattle.hd_door_client.specs.Lines.{IsNumberBehind, first_line, line_with};

use crate::answer::number_in;
use std::alloc::{AllocError, Global};

/// The first line of a text, without what can't be shown.
///
/// # Errors
/// Out of memory.
pub fn first_line(alloc: Global, text: &[u8]) -> Result<String, AllocError>
    ensures { IfOk result (λ line. string_bytes line ≡ first_line text.now) }
{
    let mut line = String::new(alloc);
    for byte in text {
        if *byte == b'\n' {
            return Ok(line);
        }
        if (b' '..=b'~').contains(byte) {
            line.push(char::from(*byte))?;
        }
    }
    Ok(line)
}

/// The number behind a name, on the first line of a text that begins with it.
pub fn number_of(text: &[u8], name: &[u8]) -> Option<u64>
    ensures { IsNumberBehind name.now (line_with name.now text.now) result }
{
    let mut lines = text.split(|byte| *byte == b'\n');
    let line = lines.find(|line| line.starts_with(name))?;
    number_in(&line[name.len()..])
}

/// What a server says of its health and of its numbers, a line for each. Turns are told of the kinds that
/// were made.
///
/// # Errors
/// Out of memory.
pub fn status_text(alloc: Global, health: &[u8], metrics: &[u8]) -> Result<Vec<u8>, AllocError> {
    let mut text = Vec::from_slice(alloc, b"health: ")?;
    text.extend_from_slice(first_line(alloc, health)?.as_bytes())?;
    text.push(b'\n')?;
    for line in metrics.split(|byte| *byte == b'\n') {
        write_metric(&mut text, line)?;
    }
    Ok(text)
}

/// Writes a line of the metrics for people, where it has a number that they don't know yet.
fn write_metric(text: &mut Vec<u8>, line: &[u8]) -> Result<(), AllocError> {
    let Some(metric) = line.strip_prefix(b"holddesk_") else {
        return Ok(());
    };
    if let Some(turns) = metric.strip_prefix(b"turns_total{kind=\"") {
        return write_turns(text, str::from_utf8(turns).unwrap_or(""));
    }
    if metric.starts_with(b"well ") {
        return Ok(());
    }
    write_words(text, metric)?;
    text.push(b'\n')?;
    Ok(())
}

/// Writes how many turns of a kind came to an outcome, where there are any.
fn write_turns(text: &mut Vec<u8>, turns: &str) -> Result<(), AllocError> {
    let Some((kind, rest)) = turns.split_once("\",outcome=\"") else {
        return Ok(());
    };
    let Some((outcome, number)) = rest.split_once("\"} ") else {
        return Ok(());
    };
    if number == "0" {
        return Ok(());
    }
    write_words(text, kind.as_bytes())?;
    text.extend_from_slice(b" turns, ")?;
    text.extend_from_slice(outcome.as_bytes())?;
    text.extend_from_slice(b": ")?;
    text.extend_from_slice(number.as_bytes())?;
    text.push(b'\n')?;
    Ok(())
}

/// Writes words that stand between low lines, and behind a blank what they count.
fn write_words(text: &mut Vec<u8>, words: &[u8]) -> Result<(), AllocError> {
    for byte in words {
        match *byte {
            b'_' => text.push(b' ')?,
            b' ' => text.extend_from_slice(b": ")?,
            other => text.push(other)?,
        }
    }
    Ok(())
}
