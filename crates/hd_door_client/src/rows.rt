//! The rows of an answer.
ghost use Rattle.std.specs.Prelude.{◌≡◌, ◌∷◌, ◌++◌, [], ℕ, Contains, IfErr, IfOk, List, string_bytes};
ghost use Rattle.serde_json.specs.Find.{get};
ghost use Rattle.serde_json.specs.View.{items_view, view};
ghost use Rattle.hd_door_client.specs.Rows.{HasRows, IsCell, IsPage, IsUnread, all_in, next_in, rows_in};

use crate::fault::AskFault;
use serde_json::Value;
use std::alloc::{AllocError, Global};

/// The rows of a page.
#[derive(Drop)]
pub struct Rows {
    text: Vec<u8>,
    array: Value,
}

impl Rows {
    /// The rows of a body, which is a JSON array.
    ///
    /// # Errors
    /// `Unreadable` where it isn't one; `Memory`.
    pub fn read(alloc: Global, body: Vec<u8>) -> Result<Rows, AskFault>
        ensures text { IfOk result (λ rows. rows.text.items ≡ body.items) }
        ensures page { IfOk result (λ rows. IsPage body.items (view rows.array)) }
        ensures unread { IfErr result (IsUnread body.items) }
    {
        let array = array_in(alloc, body.as_slice())?;
        Ok(Rows { text: body, array })
    }

    /// The text of the rows of the page, as it stands between the brackets of the array.
    pub fn inside(&self) -> &[u8]
        ensures { (rows : List ℕ) → HasRows (next_in (view self.now.array)) self.now.text.items rows
            → result.now ≡ rows }
    {
        let text = without_first(self.text.as_slice(), b'[');
        match self.next() {
            Some(_) => without_last(before_last_brace(text), b','),
            None => without_last(text, b']'),
        }
    }

    /// All rows. Where the page isn't the last, the last of them has where the next one begins.
    fn all(&self) -> &[Value]
        ensures { items_view result.now ≡ all_in (view self.now.array) }
    {
        match self.array.as_array() {
            Some(rows) => rows.as_slice(),
            None => &[],
        }
    }

    /// Where the next page begins, if there is one.
    pub fn next(&self) -> Option<u64>
        ensures { result ≡ next_in (view self.now.array) }
    {
        self.all().last()?.get("next")?.as_u64()
    }

    /// The rows of the page.
    pub fn rows(&self) -> &[Value]
        ensures { items_view result.now ≡ rows_in (view self.now.array) }
    {
        let all = self.all();
        match (self.next(), all.split_last()) {
            (Some(_), Some((_, rows))) => rows,
            _ => all,
        }
    }
}

/// The JSON array that a body is.
///
/// # Errors
/// `Unreadable` where it isn't one; `Memory`.
fn array_in(alloc: Global, body: &[u8]) -> Result<Value, AskFault>
    ensures page { IfOk result (λ array. IsPage body.now (view array)) }
    ensures unread { IfErr result (IsUnread body.now) }
{
    match Value::from_slice(alloc, body) {
        Ok(array) if array.is_array() => Ok(array),
        Err(error) if error.is_memory() => Err(AskFault::Memory),
        _ => Err(AskFault::Unreadable),
    }
}

/// A text without this byte at its front, if it begins with it.
fn without_first(text: &[u8], first: u8) -> &[u8]
    ensures { (rest : List ℕ) → text.now ≡ first ∷ rest → result.now ≡ rest }
{
    match text.split_first() {
        Some((byte, rest)) if *byte == first => rest,
        _ => text,
    }
}

/// A text without this byte at its end, if it ends with it.
fn without_last(text: &[u8], last: u8) -> &[u8]
    ensures some { (front : List ℕ) → text.now ≡ front ++ last ∷ [] → result.now ≡ front }
    ensures none { text.now ≡ [] → result.now ≡ [] }
{
    match text.split_last() {
        Some((byte, front)) if *byte == last => front,
        _ => text,
    }
}

/// What stands before the last brace that opens an object: all of a text where there is none.
fn before_last_brace(text: &[u8]) -> &[u8]
    ensures { (front object : List ℕ) → text.now ≡ front ++ 123 ∷ object → ¬ Contains object 123
        → result.now ≡ front }
{
    let mut left = text;
    while let Some((byte, front)) = left.split_last() {
        if *byte == b'{' {
            return front;
        }
        left = front;
    }
    text
}

/// What a row has under a name, as text: nothing where it has nothing, and a name of the catalogue as it is
/// told.
///
/// # Errors
/// Out of memory.
pub fn cell(alloc: Global, row: &Value, name: &str) -> Result<String, AllocError>
    ensures { IfOk result (λ text. IsCell (get name.now (view row.now)) (string_bytes text)) }
{
    match row.get(name) {
        None | Some(Value::Null) => Ok(String::new(alloc)),
        Some(Value::String(text)) => String::from_str(alloc, text.as_str()),
        Some(value) => value.to_string(alloc),
    }
}
