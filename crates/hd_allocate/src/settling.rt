//! Where a copy goes when it is handed in, or when its hold ends on a hold shelf.
ghost use Rattle.std.specs.Prelude.{◌≡◌, ℕ, ◌≤◌, List, None};
ghost use Rattle.hd_rules.specs.declared.cells.Change.{Change};
ghost use Rattle.hd_rules.specs.declared.copies.CopyState.{CopyState};
ghost use Rattle.hd_rules.specs.Ask.{Plan};
ghost use Rattle.hd_rules.specs.Desk.{Desk};
ghost use Rattle.hd_rules.specs.Facts.{Facts};
ghost use Rattle.hd_rules.specs.Settle.{allot, keep, place_at as has_place_at, sent_home};
ghost use Rattle.hd_rules.specs.Settle.{sent_to as on_the_way_to, settle, settle_tied, tied_to as kept_for};
ghost use Rattle.hd_rules.specs.Settle.{with_copy as having_copy};
ghost use Rattle.hd_allocate.specs.Settling.{hold_changes};

use crate::informant::Informant;
use crate::settled::{Allotment, Settled};
use hd_rules::{BranchNo, CopyNo, CopyState, Day, Hold, HoldPlace, PatronNo, Transit};

/// Settles a copy, which is there now, at a branch on a day (docs/desk-rules.md, "Settle"): a tied copy goes
/// to its hold, an untied one to its choice, and where it has none, home. It asks three questions at most.
pub fn settle_copy<I: Informant>(
    informant: &mut I,
    copy: CopyNo,
    branch: BranchNo,
    day: Day,
    old: &CopyState,
) -> Settled
    requires copy { I.knows_copy (I.source informant.old) copy }
    requires branch { I.knows_branch (I.source informant.old) branch }
    requires spare { 3 ≤ I.spare informant.old }
    ensures source { I.source informant.new ≡ I.source informant.old }
    ensures settled { (k : Facts) (d : Desk) → I.is_at (I.source informant.old) k d
        → (rest : CopyState → List Change → Plan)
        → I.ending informant.old k d (settle k copy branch day old.now (kept_for old.now) rest)
        ≡ I.ending informant.new k d (rest result.state (hold_changes k copy result.gets)) }
{
    match tied_to(old) {
        Some(patron) => {
            let held = informant.hold_of(copy, patron);
            settle_tied(informant, copy, branch, old, &held)
        }
        None => {
            let chosen = informant.choice_of(copy, branch, day);
            allot_copy(informant, copy, branch, None, &chosen)
        }
    }
}

/// Settles a copy that is kept for a hold or on the way to its pickup.
fn settle_tied<I: Informant>(
    informant: &mut I,
    copy: CopyNo,
    branch: BranchNo,
    old: &CopyState,
    held: &Option<Hold>,
) -> Settled
    requires copy { I.knows_copy (I.source informant.old) copy }
    requires branch { I.knows_branch (I.source informant.old) branch }
    requires spare { 1 ≤ I.spare informant.old }
    ensures source { I.source informant.new ≡ I.source informant.old }
    ensures settled { (k : Facts) (d : Desk) → I.is_at (I.source informant.old) k d
        → (rest : CopyState → List Change → Plan)
        → I.ending informant.old k d (settle_tied k copy branch old.now held.now rest)
        ≡ I.ending informant.new k d (rest result.state (hold_changes k copy result.gets)) }
{
    let state = match held {
        Some(hold) => keep_for(informant, branch, hold, place_at(branch, old)),
        None => sent_home(informant.home_of(copy), branch),
    };
    Settled { state, gets: None }
}

/// Gives a copy that no hold has to the one that was chosen for it, if one was, else sends it home. On the
/// branch's hold shelf it has that place. It asks two questions at most, and one where the copy has a place.
pub fn allot_copy<I: Informant>(
    informant: &mut I,
    copy: CopyNo,
    branch: BranchNo,
    place: Option<u32>,
    chosen: &Option<Hold>,
) -> Settled
    requires copy { I.knows_copy (I.source informant.old) copy }
    requires branch { I.knows_branch (I.source informant.old) branch }
    requires spare { 1 ≤ I.spare informant.old }
    requires spare_for_a_place { place ≡ None → 2 ≤ I.spare informant.old }
    ensures source { I.source informant.new ≡ I.source informant.old }
    ensures settled { (k : Facts) (d : Desk) → I.is_at (I.source informant.old) k d
        → (rest : CopyState → List Change → Plan)
        → I.ending informant.old k d (allot k copy branch place chosen.now rest)
        ≡ I.ending informant.new k d (rest result.state (hold_changes k copy result.gets)) }
{
    match chosen {
        Some(hold) => {
            let held = informant.hold_of(copy, hold.patron);
            let state = keep_for(informant, branch, hold, place);
            let new = with_copy(Some(copy), hold);
            let gets = Some(Allotment { old: held, new });
            Settled { state, gets }
        }
        None => Settled {
            state: sent_home(informant.home_of(copy), branch),
            gets: None,
        },
    }
}

/// Keeps a copy for a hold: at its pickup on the place that it has or on the least free one, else on the way
/// there.
fn keep_for<I: Informant>(
    informant: &mut I,
    branch: BranchNo,
    hold: &Hold,
    place: Option<u32>,
) -> CopyState
    requires branch { I.knows_branch (I.source informant.old) branch }
    requires spare { place ≡ None → 1 ≤ I.spare informant.old }
    ensures source { I.source informant.new ≡ I.source informant.old }
    ensures kept { (k : Facts) (d : Desk) → I.is_at (I.source informant.old) k d
        → (rest : CopyState → Plan)
        → I.ending informant.old k d (keep branch hold.now place rest)
        ≡ I.ending informant.new k d (rest result) }
{
    if hold.pickup != branch {
        return sent_to(branch, hold);
    }
    let place = match place {
        Some(place) => place,
        None => informant.place_at(branch),
    };
    CopyState::OnHoldShelf(HoldPlace {
        branch,
        place,
        patron: hold.patron,
    })
}

/// Where a copy of this home goes that nobody is to have: its home's open shelf, or the way there.
fn sent_home(home: BranchNo, branch: BranchNo) -> CopyState
    ensures { (k : Facts) (c : ℕ) → home ≡ k.home c → result ≡ sent_home k c branch }
{
    if home == branch {
        CopyState::Shelf(branch)
    } else {
        CopyState::InTransit(Transit {
            from: branch,
            to: home,
            patron: None,
        })
    }
}

/// On the way from the branch to the hold's pickup.
fn sent_to(branch: BranchNo, hold: &Hold) -> CopyState
    ensures { result ≡ on_the_way_to branch hold.now }
{
    CopyState::InTransit(Transit {
        from: branch,
        to: hold.pickup,
        patron: Some(hold.patron),
    })
}

/// The patron that a copy is kept for or on the way to.
pub fn tied_to(state: &CopyState) -> Option<PatronNo>
    ensures { result ≡ kept_for state.now }
{
    match state {
        CopyState::OnHoldShelf(place) => Some(place.patron),
        CopyState::InTransit(transit) => transit.patron,
        CopyState::Shelf(_) => None,
        CopyState::OnLoan(_) => None,
    }
}

/// The place that a copy has on the branch's hold shelf.
fn place_at(branch: BranchNo, state: &CopyState) -> Option<u32>
    ensures { result ≡ has_place_at branch state.now }
{
    match state {
        CopyState::OnHoldShelf(place) if place.branch == branch => Some(place.place),
        _ => None,
    }
}

/// The hold with another copy, or with none.
pub fn with_copy(copy: Option<CopyNo>, hold: &Hold) -> Hold
    ensures { result ≡ having_copy copy hold.now }
{
    Hold { copy, ..*hold }
}
