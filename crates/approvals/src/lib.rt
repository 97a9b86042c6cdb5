// Document 02, K6: approval of a driver's frame while the guard runs, as ask, then commit or drop.

#![tactic(auto)]

ghost use Rattle.std.specs.List.{list_all};
ghost use Rattle.std.specs.Prelude.{◌≡◌, false, not, ◌≤◌, ◌<◌, eqb, length, get_or};
ghost use Rattle.model.specs.Approvals.{maps_writable, committed_slot};
ghost use Rattle.model.specs.Basics.{both};
ghost use Rattle.model.specs.Calls;
ghost use Rattle.model.specs.Calls.{outcome_by, answer};
ghost use Rattle.model.specs.Guard.{none, Tables, with_shadow, with_map, with_exclusion, with_three, guard_of, is_pending};
ghost use Rattle.model.specs.Sync.{sweep, sweep_from};

use model::{Answer, NONE, Pending, Refusal, State};
use step::Counts;

// A page's number in the map. A page past its end has none.
fn approval_of(map: &[u16], page: u64) -> u16
    ensures { result ≡ get_or map.now page none }
{
    map.get(page as usize).copied().unwrap_or(NONE)
}

// Question 20 of an ask: nothing is pending, its page has no approval, and its frame is not excluded.
#[tactic(auto, using(laws::proofs::AskedLaws::asked))]
fn may_ask(pending: Option<Pending>, approval: u16, excluded: bool) -> bool
    ensures { result ≡ both (not (is_pending pending)) (both (eqb approval none) (not excluded)) }
{
    !state::is_pending(pending) && approval == NONE && !excluded
}

// Question 21: no present shadow entry with the frame is writable.
fn none_writable(shadow: &[u64], frame: u16) -> bool
    ensures { result ≡ list_all (λ entry. not (maps_writable frame entry)) shadow.now }
{
    shadow
        .iter()
        .all(|entry| !entry::maps_writable(*entry, frame))
}

// Asks for the approval of a frame for a page: the frame is excluded from now on, and both are pending. Question 9 has settled that the frame is below F, so
// that 16 bits hold it.
#[tactic(auto, using(laws::proofs::AskedLaws::answered, crate::proofs::ApprovalLaws::asks))]
pub fn ask(
    s: &mut State,
    shadow: &[u64],
    map: &[u16],
    exclusion: &mut [u8],
    page: u64,
    frame: u64,
) -> Answer
    ensures { (t : Tables) → outcome_by result s.new (with_three shadow.now map.now exclusion.new t)
        ≡ answer (guard_of s.old (with_three shadow.now map.now exclusion.old t)) (Calls.ask page frame) }
{
    if !lengths::three_tables_in_order(*s, shadow.len(), map.len(), exclusion.len()) {
        return Err(Refusal::StateOrTable);
    }
    if !limits::pair_exists(page, frame, s.pages, s.frames) {
        return Err(Refusal::DoesNotExist);
    }
    if !may_ask(
        s.pending,
        approval_of(map, page),
        bitmap::test_bit(exclusion, frame),
    ) {
        return Err(Refusal::ApprovalConflict);
    }
    if !none_writable(shadow, frame as u16) {
        return Err(Refusal::MappedWritable);
    }
    bitmap::set_bit(exclusion, frame);
    s.pending = Some(Pending { page, frame });
    Ok((0, 0))
}

// What a commit makes of every page but the asked one, in rising order. The tables have one length, which question 7 has settled.
fn commit_others(user: bool, frame: u16, shadow: &mut [u64], map: &mut [u16]) -> Counts
    requires { length map.old ≡ length shadow.old }
    ensures { (sweep shadow.new map.new result.changed result.joined
        ≡ sweep_from (λ p entry approval. committed_slot user frame false entry approval) 0 shadow.old map.old)
        × (result.changed ≤ length shadow.old) × (result.joined ≤ length shadow.old) }
{
    let mut counts = Counts::default();
    for i in 0..shadow.len() {
        counts = step::commit_at(user, frame, shadow, map, i, counts);
    }
    counts
}

// What a commit makes of every page. The asked page comes first: with its number in the map it is none of the others, so that the loop does not ask for it. The
// tables have V entries, and the pair is below V and F, as question 7 has settled.
fn commit_pages(user: bool, page: u64, frame: u16, shadow: &mut [u64], map: &mut [u16]) -> Counts
    requires { (length map.old ≡ length shadow.old) × (length shadow.old ≤ 2048) × (page < length shadow.old) × (frame < 4096) }
    ensures { sweep shadow.new map.new result.changed result.joined
        ≡ sweep_from (λ p entry approval. committed_slot user frame (eqb p page) entry approval) 0 shadow.old map.old }
{
    let none = Counts::default();
    let asked = step::approve_at(user, frame, shadow, map, page as usize, none);
    let others = commit_others(user, frame, shadow, map);
    Counts {
        changed: asked.changed + others.changed,
        joined: asked.joined + others.joined,
    }
}

// Commits what is pending: the asked page and every other that has the frame are approved with it. Where nothing is pending 20 is answered yes, so that 22
// may be asked first.
#[tactic(auto, using(laws::proofs::AskedLaws::answered, crate::proofs::ApprovalLaws::commits))]
pub fn commit(s: &mut State, shadow: &mut [u64], map: &mut [u16]) -> Answer
    ensures { (t : Tables) → outcome_by result s.new (with_shadow shadow.new (with_map map.new t))
        ≡ answer (guard_of s.old (with_shadow shadow.old (with_map map.old t))) Calls.commit }
{
    if !lengths::commit_in_order(*s, shadow.len(), map.len()) {
        return Err(Refusal::StateOrTable);
    }
    let asked = s.pending.ok_or(Refusal::NothingPending)?;
    if approval_of(map, asked.page) != NONE {
        return Err(Refusal::ApprovalConflict);
    }
    let user = state::in_user(s.mode);
    let all = commit_pages(user, asked.page, asked.frame as u16, shadow, map);
    s.pending = None;
    Ok((all.changed, all.joined))
}

// Drops what is pending: the frame is no longer excluded.
#[tactic(auto, using(laws::proofs::AskedLaws::answered, crate::proofs::ApprovalLaws::drops))]
pub fn drop_pending(s: &mut State, exclusion: &mut [u8]) -> Answer
    ensures { (t : Tables) → outcome_by result s.new (with_exclusion exclusion.new t)
        ≡ answer (guard_of s.old (with_exclusion exclusion.old t)) Calls.drop }
{
    if !lengths::drop_in_order(*s, exclusion.len()) {
        return Err(Refusal::StateOrTable);
    }
    let asked = s.pending.ok_or(Refusal::NothingPending)?;
    bitmap::clear_bit(exclusion, asked.frame);
    s.pending = None;
    Ok((0, 0))
}
