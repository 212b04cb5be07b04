//! The laws of streams.
ghost use Rattle.std.specs.Prelude.{◌≡◌, ◌++◌, ◌∷◌, [], ℕ, List, false};
ghost use Rattle.hd_field.specs.Streams.{Begun, begun_after, cut, lines_in, stream_start};

/// However a text is cut in two, the lines that end in it
/// are the same, and so is what has come of the next one.
pub fn cuts_change_nothing()
    ensures lines { (begun : Begun) (first then : List ℕ)
        → lines_in begun (first ++ then) ≡ lines_in begun first ++ lines_in (begun_after begun first) then }
    ensures rest { (begun : Begun) (first then : List ℕ)
        → begun_after begun (first ++ then) ≡ begun_after (begun_after begun first) then }
{}

/// The lines of a stream are the parts of its whole text between carriage returns, the
/// first as it is and each other without the line feeds at its beginning; what has come
/// of a line is the last part, where no line has grown too long.
pub fn lines_are_parts()
    ensures { (text : List ℕ) → (begun_after stream_start text).too_long ≡ false
        → cut text ≡ lines_in stream_start text ++ (begun_after stream_start text).text ∷ [] }
{}
