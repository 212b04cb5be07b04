//! A desk carried over to another catalogue: what is carried over, by names, and the obstacles.
//!
//! A journal ends, and the next one opens with its last desk, over a catalogue that may be another one. What
//! is carried over is written as the rows of an opening. Where something can't be carried over, all obstacles
//! are reported at once (docs/opening.md).
#![tactic(auto)]

mod adding;
mod carrying;
mod copy_rows;
mod counting;
mod fault;
mod hold_rows;
mod laws;
mod names;
mod obstacle;
mod obstacles;
mod part;
mod telling;
mod writing_off;

pub use crate::carrying::carry;
pub use crate::fault::CarryFault;
pub use crate::laws::{
    names_keep_to_themselves, obstacles_are_exact, obstacles_are_real, rows_carry_a_desk_over,
    the_next_journal_begins,
};
pub use crate::obstacle::Obstacle;
pub use crate::telling::obstacle_text;
pub use hd_catalogue::Catalogue;
pub use hd_desk::Desk;
pub use hd_rules::{BranchNo, CopyNo, CopyState, OpeningRow, PatronNo, TitleNo};
