//! The cells of a desk, and changes of them.

use crate::copies::CopyState;
use crate::holds::Hold;
use crate::numbers::{CopyNo, PatronNo, TitleNo};

/// A cell of a desk.
#[derive(Clone, Copy, PartialEq, Eq, Debug)]
pub enum Cell {
    /// Where the copy is.
    Copy(CopyNo),
    /// The hold of the title by the patron.
    Hold(TitleNo, PatronNo),
}

/// What a cell has.
#[derive(Clone, Copy, PartialEq, Eq, Debug)]
pub enum Value {
    /// In a copy's cell.
    Copy(CopyState),
    /// In the cell of a title and a patron: their hold, or none.
    Hold(Option<Hold>),
}

/// A change of one cell.
#[derive(Clone, Copy, PartialEq, Eq, Debug)]
pub struct Change {
    /// The cell.
    pub cell: Cell,
    /// What it had before.
    pub old: Value,
    /// What it has afterwards.
    pub new: Value,
}

impl Default for Change {
    ghost use Rattle.std.specs.Prelude.{◌≡◌};

    ghost is_default = { λ change. change.old ≡ change.new };

    /// A change that changes nothing. It fills the unused places of a short list.
    fn default() -> Change {
        Change {
            cell: Cell::Hold(TitleNo::new(0).unwrap(), PatronNo::new(0).unwrap()),
            old: Value::Hold(None),
            new: Value::Hold(None),
        }
    }
}
