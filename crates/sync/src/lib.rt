// Document 01, "Synchronising one page", and the same for all pages of a flat table. The step of a page is `step`'s.

#![tactic(auto)]

ghost use Rattle.std.specs.Prelude.{◌≡◌, true, false, ◌≤◌, length};
ghost use Rattle.model.specs.Guard.{Tables, with_three, guard_of, vector_bytes};
ghost use Rattle.model.specs.Sync.{sweep, sweep_from, entry_in, step_from};
ghost use Rattle.model.specs.Calls.{outcome_by, rules_of, sync_page, sync_all, answer};
ghost use Rattle.step.specs.Steps.{rules_in, Known};

use model::{Answer, Refusal, State};
use step::{Counts, Rules};

// The rules of a state and its exclusion vector, whose length and whose F question 7 has settled in every caller.
pub fn rules_of(s: State, exclusion: &[u8]) -> Rules<'_>
    requires { (length exclusion.now ≡ vector_bytes s.frames) × (s.frames ≤ 4096) }
    ensures { rules_in result ≡ rules_of s exclusion.now }
{
    Rules {
        user: state::in_user(s.mode),
        frames: s.frames,
        pending: state::pending_frame(s.pending),
        exclusion,
    }
}

// Every page of parts of one length, in rising order. The lengths are asked for since question 7 has settled them in every caller, and `MARKED` may be true
// where the pending frame is. Each `MARKED`, and with it each mode that is a constant, has a loop of its own, which asks nothing of it. The tables are two
// slices, as in `step`.
fn sync_pages<const MARKED: bool>(
    rules: &Rules,
    kernel: &[u64],
    shadow: &mut [u64],
    map: &mut [u16],
) -> Counts
    requires { (length shadow.old ≡ length kernel.now) × (length map.old ≡ length kernel.now) × Known MARKED rules.now }
    ensures { sweep shadow.new map.new result.changed result.joined
        ≡ sweep_from (step_from (rules_in rules.now) (entry_in kernel.now)) 0 shadow.old map.old }
{
    let mut counts = Counts::default();
    for (i, entry) in kernel.iter().enumerate() {
        counts = rules.sync_at::<MARKED>(*entry, shadow, map, i, counts);
    }
    counts
}

// The same rules in a mode, field by field: a literal of a struct with an invariant has no `..rules`.
fn in_mode<'a>(user: bool, rules: &Rules<'a>) -> Rules<'a>
    ensures { (result.user ≡ user) × (result.frames ≡ rules.now.frames) × (result.pending ≡ rules.now.pending)
        × (result.exclusion.now ≡ rules.now.exclusion.now) }
{
    Rules {
        user,
        frames: rules.frames,
        pending: rules.pending,
        exclusion: rules.exclusion,
    }
}

// Every page of parts of one length, in rising order: of a whole flat table, of a part of it that begins anywhere, and of the table of a tree of depth 1 (K4).
// In a guard the pending frame is marked, or none is, and each mode has a loop for that. Question 7 has settled the lengths.
pub fn sync_flat(rules: &Rules, kernel: &[u64], shadow: &mut [u64], map: &mut [u16]) -> Counts
    requires { (length shadow.old ≡ length kernel.now) × (length map.old ≡ length kernel.now) }
    ensures { sweep shadow.new map.new result.changed result.joined
        ≡ sweep_from (step_from (rules_in rules.now) (entry_in kernel.now)) 0 shadow.old map.old }
{
    if !step::is_marked(rules.frames, rules.pending, rules.exclusion) {
        return sync_pages::<false>(rules, kernel, shadow, map);
    }
    if rules.user {
        return sync_pages::<true>(&in_mode(true, rules), kernel, shadow, map);
    }
    sync_pages::<true>(&in_mode(false, rules), kernel, shadow, map)
}

// Synchronise one page.
pub fn sync_page(
    s: State,
    kernel: &[u64],
    shadow: &mut [u64],
    map: &mut [u16],
    exclusion: &[u8],
    page: u64,
) -> Answer
    ensures { (t : Tables) → outcome_by result s (with_three shadow.new map.new exclusion.now t)
        ≡ answer (guard_of s (with_three shadow.old map.old exclusion.now t))
        (sync_page kernel.now page) }
{
    if !lengths::sync_in_order(s, kernel.len(), shadow.len(), map.len(), exclusion.len()) {
        return Err(Refusal::StateOrTable);
    }
    if !limits::page_exists(page, s.pages) {
        return Err(Refusal::DoesNotExist);
    }
    let i = page as usize;
    let rules = rules_of(s, exclusion);
    let one = rules.sync_at::<false>(kernel[i], shadow, map, i, Counts::default());
    Ok((one.changed, one.joined))
}

// Synchronise all pages.
pub fn sync_all(
    s: State,
    kernel: &[u64],
    shadow: &mut [u64],
    map: &mut [u16],
    exclusion: &[u8],
) -> Answer
    ensures { (t : Tables) → outcome_by result s (with_three shadow.new map.new exclusion.now t)
        ≡ answer (guard_of s (with_three shadow.old map.old exclusion.now t))
        (sync_all kernel.now) }
{
    if !lengths::sync_in_order(s, kernel.len(), shadow.len(), map.len(), exclusion.len()) {
        return Err(Refusal::StateOrTable);
    }
    let all = sync_flat(&rules_of(s, exclusion), kernel, shadow, map);
    Ok((all.changed, all.joined))
}
