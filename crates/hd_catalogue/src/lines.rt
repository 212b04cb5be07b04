//! The lines of a text.
ghost use Rattle.std.specs.Prelude.{◌≡◌, ◌==◌, ◌<◌, ◌≤◌, ◌∷◌, length, position};
ghost use Rattle.std.specs.Str.Lines.{lines, strip_carriage_return};
ghost use Rattle.hd_catalogue.specs.Files.{lines_of};

/// A text's first line without its end, and what follows it.
#[derive(Clone, Copy)]
pub struct FirstLine<'a> {
    pub line: &'a [u8],
    pub after: &'a [u8],
}

/// The first line of a text. An empty text is one empty line.
pub fn first_line(text: &[u8]) -> FirstLine<'_>
    ensures first { lines_of text.now ≡ result.line.now ∷ lines result.after.now }
    ensures lines { 0 < length text.now → lines text.now ≡ result.line.now ∷ lines result.after.now }
    ensures within { length result.after.now ≤ length text.now }
    ensures shorter { 0 < length text.now → length result.after.now < length text.now }
{
    match first_end(text) {
        Some(end) => {
            let (line, rest) = text.split_at(end);
            let (_, after) = rest.split_at(1);
            FirstLine {
                line: without_return(line),
                after,
            }
        }
        None => FirstLine {
            line: text,
            after: &[],
        },
    }
}

/// The place of the first LF, if there is one.
fn first_end(text: &[u8]) -> Option<usize>
    ensures { result ≡ position (λ byte. byte == 10) text.now }
{
    text.iter().position(|byte| *byte == b'\n')
}

/// A line without the one CR at its end.
fn without_return(line: &[u8]) -> &[u8]
    ensures { result.now ≡ strip_carriage_return line.now }
{
    if !line.is_empty() && line[line.len() - 1] == b'\r' {
        line.split_at(line.len() - 1).0
    } else {
        line
    }
}
