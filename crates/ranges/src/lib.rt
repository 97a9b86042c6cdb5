// The ranges of a state's numbers, each a function that a call or a crate above can ask, and the state in order by them.

#![tactic(auto)]

ghost use Rattle.std.specs.Prelude.{◌≡◌};
ghost use Rattle.model.specs.Basics;
ghost use Rattle.model.specs.Basics.{within};
ghost use Rattle.model.specs.Sizes.{pages_in_range, frames_in_range, devices_in_range};
ghost use Rattle.model.specs.Questions.{pending_in_range, state_in_order};

use model::{ENTRY_PAGES, MOST_DEVICES, MOST_FRAMES, MOST_PAGES, Pending, State};
use state::running;

// Both answers are yes.
#[tactic(auto, unfolding(model::specs::Basics::both))]
pub fn both(a: bool, b: bool) -> bool
    ensures { result ≡ Basics.both a b }
{
    a && b
}

// x is from low to high, both ends included.
#[tactic(auto, unfolding(model::specs::Basics::within, model::specs::Basics::both))]
pub fn in_range(low: u64, high: u64, x: u64) -> bool
    ensures { result ≡ within low high x }
{
    (low..=high).contains(&x)
}

// The numbers of a state, as question 7 asks for them.

#[tactic(auto, unfolding(model::specs::Sizes::pages_in_range))]
pub fn pages_in_range(pages: u64) -> bool
    ensures { result ≡ pages_in_range pages }
{
    in_range(1, MOST_PAGES, pages)
}

#[tactic(auto, unfolding(model::specs::Sizes::frames_in_range))]
pub fn frames_in_range(frames: u64) -> bool
    ensures { result ≡ frames_in_range frames }
{
    in_range(1, MOST_FRAMES, frames)
}

// The number of entry pages, as a state may have it.
pub fn entry_count_in_range(count: u64) -> bool
    ensures { result ≡ within 1 16 count }
{
    in_range(1, ENTRY_PAGES as u64, count)
}

// The number of devices (K5), as the start may be given it and a state may have it.
#[tactic(auto, unfolding(model::specs::Sizes::devices_in_range))]
pub fn devices_in_range(count: u64) -> bool
    ensures { result ≡ devices_in_range count }
{
    in_range(1, MOST_DEVICES as u64, count)
}

// The page of a pending pair is below V, and its frame below F (K6).
#[tactic(auto, unfolding(model::specs::Questions::pending_in_range, model::specs::Basics::both))]
pub fn pending_in_range(pages: u64, frames: u64, pending: Option<Pending>) -> bool
    ensures { result ≡ pending_in_range pages frames pending }
{
    pending.is_none_or(|asked| asked.page < pages && asked.frame < frames)
}

// The state's part of question 7. Each part has a way out, so that the compiler asks once what the boundary and a call below it both ask; the number of devices
// comes before e, which is the order of the fewest instructions.
#[tactic(auto, unfolding(model::specs::Questions::state_in_order, model::specs::Basics::both))]
pub fn state_in_order(s: State) -> bool
    ensures { result ≡ state_in_order s }
{
    pages_in_range(s.pages)
        && frames_in_range(s.frames)
        && devices_in_range(s.devices)
        && entry_count_in_range(s.entry_count)
        && running(s.mode) < s.pages
        && pending_in_range(s.pages, s.frames, s.pending)
}
