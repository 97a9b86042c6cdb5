// Document 01, "Synchronising one page": steps 1 to 5 on a page's kernel entry, stored in both tables and counted. They read an entry and no kernel table,
// so that every synchronisation has them in common. Document 02, K6: what a commit makes of a page, stored and counted in the same way.

#![tactic(auto)]

ghost use Rattle.std.specs.Prelude.{◌≡◌, true, false, ◌+◌, ◌^◌, ◌<◌, ◌≤◌, length, get_or, set};
ghost use Rattle.model.specs.Guard.{none, vector_bytes};
ghost use Rattle.model.specs.Bits.{approved};
ghost use Rattle.model.specs.Approvals.{committed_slot};
ghost use Rattle.model.specs.Sync;
ghost use Rattle.model.specs.Sync.{slot, sweep};
ghost use Rattle.step.specs.Steps.{rules_in, is_marked, Known, stored};

mod rules;

use entry::ValidEntry;
use model::NONE;
pub use rules::Rules;

// The shadow entries whose value changed, and the pages that joined the map.
#[derive(Clone, Copy, Default)]
pub struct Counts {
    pub changed: u64,
    pub joined: u64,
}

// A page's shadow entry and its number in the map, which is C's: 65535 where the page has none.
#[derive(Drop)]
struct Slot {
    entry: u64,
    approval: u16,
}

impl Slot {
    fn unapproved(entry: u64) -> Self
        ensures { slot result.entry result.approval ≡ slot entry none }
    {
        Slot {
            entry,
            approval: NONE,
        }
    }

    fn approved(user: bool, number: u16) -> Self
        ensures { slot result.entry result.approval ≡ slot (approved user number) number }
    {
        Slot {
            entry: shadow_entry::approved(user, number),
            approval: number,
        }
    }

    // Stores the slot of page i in both tables, and counts what it changed there. A shadow entry is stored always and counted without a branch; a number
    // seldom changes, and is stored where it does: that page joined the map. No more pages were counted than lie before this one. The tables are two slices, as
    // C lends them: a struct of both was tried, and each method then says besides that it holds the same slices after it as before.
    fn put(self, shadow: &mut [u64], map: &mut [u16], i: usize, counts: Counts) -> Counts
        requires { (i < length shadow.old) × (i < length map.old) × (counts.changed ≤ i) × (counts.joined ≤ i) }
        ensures { (sweep shadow.new map.new result.changed result.joined
            ≡ stored i (sweep shadow.old map.old counts.changed counts.joined) (slot self.entry self.approval))
            × (result.changed ≤ counts.changed + 1) × (result.joined ≤ counts.joined + 1) }
    {
        let mut joined = counts.joined;
        if map[i] != self.approval {
            map[i] = self.approval;
            joined += 1;
        }
        let changed = counts.changed + u64::from(shadow[i] != self.entry);
        shadow[i] = self.entry;
        Counts { changed, joined }
    }
}

// Whether the pending frame has its bit in the vector, as one that was asked for has (K6), or is none below F, as 65535 is. The vector has a bit for each frame
// below F, as question 7 has settled; F may be any number, so that this is no method of the rules.
#[tactic(auto, using(crate::proofs::StepLaws::marked_above, crate::proofs::StepLaws::marked_by), unfolding(model::specs::Guard::vector_bytes))]
pub fn is_marked(frames: u64, pending: u64, exclusion: &[u8]) -> bool
    requires { length exclusion.now ≡ vector_bytes frames }
    ensures { result ≡ is_marked frames pending exclusion.now }
{
    frames <= pending || bitmap::test_bit_within(exclusion, pending)
}

impl<'a> Rules<'a> {
    // Steps 3 to 5 on a valid kernel entry, of a page that has no number in the map. Where the pending frame is known to be marked, a frame
    // without its bit is not compared with it.
    fn unapproved<const MARKED: bool>(&self, entry: ValidEntry) -> Slot
        requires { Known MARKED self.now }
        ensures { slot result.entry result.approval ≡ Sync.step (rules_in self.now) entry.bits none }
    {
        let frame = entry.frame();
        if self.frames <= frame {
            return Slot::unapproved(0);
        }
        if !MARKED && frame == self.pending {
            return Slot::unapproved(shadow_entry::inspected_of(entry));
        }
        if !bitmap::test_bit_within(self.exclusion, frame) {
            return Slot::unapproved(shadow_entry::ordinary_of(self.user, entry));
        }
        if frame == self.pending {
            return Slot::unapproved(shadow_entry::inspected_of(entry));
        }
        let number = frame as u16;
        Slot::approved(self.user, number)
    }

    // Steps 1 to 5 on a kernel entry and the page's number in the map.
    #[tactic(auto, using(crate::proofs::StepLaws::step_absent, crate::proofs::StepLaws::step_approved))]
    fn step<const MARKED: bool>(&self, entry: u64, approval: u16) -> Slot
        requires { Known MARKED self.now }
        ensures { slot result.entry result.approval ≡ Sync.step (rules_in self.now) entry approval }
    {
        let Some(entry) = ValidEntry::new(entry) else {
            return Slot { entry: 0, approval };
        };
        if approval == NONE {
            return self.unapproved::<MARKED>(entry);
        }
        Slot::approved(self.user, approval)
    }

    // The step of page i on its kernel entry, stored in both tables and counted. It asks that both tables have the page, which question 7 and the limit at V
    // have settled in every caller, that no more pages were counted than lie before it, and that the pending frame is marked where `MARKED` says so. The map's
    // number is settled before an entry is written, so that it is read once.
    pub fn sync_at<const MARKED: bool>(
        &self,
        entry: u64,
        shadow: &mut [u64],
        map: &mut [u16],
        i: usize,
        counts: Counts,
    ) -> Counts
        requires { (i < length shadow.old) × (i < length map.old) × (counts.changed ≤ i) × (counts.joined ≤ i) × Known MARKED self.now }
        ensures { (sweep shadow.new map.new result.changed result.joined
            ≡ stored i (sweep shadow.old map.old counts.changed counts.joined)
            (Sync.step (rules_in self.now) entry (get_or map.old i 0)))
            × (result.changed ≤ counts.changed + 1) × (result.joined ≤ counts.joined + 1) }
    {
        self.step::<MARKED>(entry, map[i])
            .put(shadow, map, i, counts)
    }
}

// Approves page i with a frame, as a commit does (K6), stored in both tables and counted. It asks that both tables have the page, which question 7 and the
// limit at V have settled in its callers, and that no more pages were counted than lie before it.
pub fn approve_at(
    user: bool,
    frame: u16,
    shadow: &mut [u64],
    map: &mut [u16],
    i: usize,
    counts: Counts,
) -> Counts
    requires { (i < length shadow.old) × (i < length map.old) × (counts.changed ≤ i) × (counts.joined ≤ i) }
    ensures { (sweep shadow.new map.new result.changed result.joined
        ≡ stored i (sweep shadow.old map.old counts.changed counts.joined) (slot (approved user frame) frame))
        × (result.changed ≤ counts.changed + 1) × (result.joined ≤ counts.joined + 1) }
{
    Slot::approved(user, frame).put(shadow, map, i, counts)
}

// What a commit makes of page i where that is not the asked one: it is approved where it has no number in the map and its present shadow entry has the frame.
// It asks for the same.
pub fn commit_at(
    user: bool,
    frame: u16,
    shadow: &mut [u64],
    map: &mut [u16],
    i: usize,
    counts: Counts,
) -> Counts
    requires { (i < length shadow.old) × (i < length map.old) × (counts.changed ≤ i) × (counts.joined ≤ i) }
    ensures { (sweep shadow.new map.new result.changed result.joined
        ≡ stored i (sweep shadow.old map.old counts.changed counts.joined)
        (committed_slot user frame false (get_or shadow.old i 0) (get_or map.old i 0)))
        × (result.changed ≤ counts.changed + 1) × (result.joined ≤ counts.joined + 1) }
{
    if !entry::maps(shadow[i], frame) {
        return counts;
    }
    if map[i] != NONE {
        return counts;
    }
    approve_at(user, frame, shadow, map, i, counts)
}
