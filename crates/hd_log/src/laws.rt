//! Laws of all lines of the log.
ghost use Rattle.std.specs.Prelude.{◌≡◌, ◌<◌, ◌^◌, List, ℕ, decimal, true};
ghost use Rattle.hd_log.specs.Escapes.{escaped, unescaped};
ghost use Rattle.hd_log.specs.Lines.{Field, IsOneLine, line_text};
ghost use Rattle.hd_log.specs.Masks.{IsBehind, IsKept, MayBegin, is_secret};

/// Each line is one: printable ASCII, whatever its fields say, and the line feed that ends it.
pub fn lines_are_lines()
    ensures { (fields : List Field) → IsOneLine (line_text fields) }
{}

/// Bytes can be had back from what was written: texts that differ are written differently.
pub fn escapes_are_read(bytes: &[u8])
    ensures { unescaped (escaped bytes.now) ≡ bytes.now }
{
    let _ = bytes;
}

/// The digits of a number are written as themselves.
pub fn numbers_are_plain()
    ensures { (number : ℕ) → number < 2 ^ 64 → escaped (decimal number) ≡ decimal number }
{}

/// The value of a secret field isn't written, wherever the field is: two lines that differ only in it are
/// written alike. It ends at the next bar, or with the line.
pub fn secrets_are_masked()
    ensures { (before rest : List ℕ) (a b : ℕ) → MayBegin before → is_secret a b ≡ true → IsBehind rest
        → IsKept before a b rest }
{}
