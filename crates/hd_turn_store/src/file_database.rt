//! The database in a journal's files.

ghost use Rattle.sqlite.specs.WalFiles.{image_at};
ghost use Rattle.hd_turn_store.specs.Words.{state};
ghost use Rattle.hd_turn_store.specs.Crashes.{FindsJournal};

use sqlite::{Alter, Connection, Start};
use std::marker::PhantomData;

/// A database that was opened. Where the files that `F` stands for hold a journal, its connection shows that
/// journal, with its turns. Only `connect` makes it.
#[derive(Drop)]
pub struct FileDatabase<S: Alter, F: Start> {
    pub(crate) conn: Connection<S>,
    pub(crate) start: PhantomData<F>,
    pub ghost found: { ∥ FindsJournal (image_at F.Start) (state S.Store conn) ∥₁ },
}
