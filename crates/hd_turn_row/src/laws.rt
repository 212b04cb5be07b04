//! Laws of rows.
ghost use Rattle.std.specs.Prelude.{◌≡◌, ℕ, List};
ghost use Rattle.hd_catalogue.specs.Contents.{Contents, facts_of};
ghost use Rattle.hd_rules.specs.Messages.{IsKnownMessage};
ghost use Rattle.hd_rules.specs.Turns.{Message};
ghost use Rattle.hd_rules.specs.declared.replies.TurnReply.{TurnReply};
ghost use Rattle.hd_turn_row.specs.Faults.{IsFirstFault};
ghost use Rattle.hd_turn_row.specs.Grown.{OnlyGrew};
ghost use Rattle.hd_turn_row.specs.Replies.{IsReplyColumn};
ghost use Rattle.hd_turn_row.specs.Rows.{IsRowOf};
ghost use Rattle.hd_turn_store.specs.Kept.{KeptTurn};

use crate::fault::RowFault;
use hd_day_text::texts_are_of_one_day;

/// A row is that of one message of one seat at most, and of none where it has a fault. What it asks is known
/// to the catalogue.
pub fn a_row_is_of_one_message()
    ensures one { (k : Contents) (seat seat' : ℕ) (message message' : Message) (row : KeptTurn)
        → IsRowOf k seat message row → IsRowOf k seat' message' row
        → (seat ≡ seat') × (message ≡ message') }
    ensures none { (k : Contents) (seat : ℕ) (message : Message) (row : KeptTurn) (fault : RowFault)
        → IsFirstFault k row fault → ¬ IsRowOf k seat message row }
    ensures known { (k : Contents) (seat : ℕ) (message : Message) (row : KeptTurn)
        → IsRowOf k seat message row → IsKnownMessage (facts_of k) message }
{
    texts_are_of_one_day();
}

/// A row asks the same of a catalogue that only grew.
#[tactic(auto, using(crate::proofs::RowLemmas::row_grown))]
pub fn a_grown_catalogue_reads_the_same()
    ensures { (old new : Contents) (seat : ℕ) (message : Message) (row : KeptTurn) → OnlyGrew old new
        → IsRowOf old seat message row → IsRowOf new seat message row }
{}

/// A column is that of one reply at most, and a reply has one column at most. So two replies are the same
/// where their columns are, and where they differ their columns do.
#[tactic(auto, using(crate::proofs::ReplyLemmas::reply_once, crate::proofs::ReplyLemmas::column_once))]
pub fn replies_of_one_column_are_one()
    ensures reply { (one other : TurnReply) (column : List ℕ) → IsReplyColumn one column
        → IsReplyColumn other column → one ≡ other }
    ensures column { (reply : TurnReply) (one other : List ℕ) → IsReplyColumn reply one
        → IsReplyColumn reply other → one ≡ other }
{}
