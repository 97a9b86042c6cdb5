// The tests behind question 7, by call, each a function that a call or a crate above can ask: the length of every table that it is lent. `ranges` has the
// test of the state, which these ask first: F is then known to be in its range, so that the length of a vector can be computed from it.

#![tactic(auto, using(crate::proofs::FitLaws::frames_bounded), unfolding(model::specs::Questions::in_order, model::specs::Basics::both))]

ghost use Rattle.std.specs.Prelude.{◌≡◌, [], ◌∷◌, true, ◌^◌, ◌<◌, eqb};
ghost use Rattle.model.specs.Guard.{vector_bytes};
ghost use Rattle.model.specs.Questions.{state_in_order, in_order};

use model::State;
use ranges::state_in_order;

// The length of the exclusion vector. It asks for a number of frames at which the sum does not wrap, as question 7 settles F, or the record's 16 bits.
#[tactic(auto, unfolding(model::specs::Guard::vector_bytes))]
pub fn vector_bytes(frames: u64) -> usize
    requires { frames < 2 ^ 63 }
    ensures { result ≡ vector_bytes frames }
{
    (frames as usize + 7) / 8
}

// A table with an entry for each page, or a list with a record for each device.
pub fn entries_fit(length: usize, pages: u64) -> bool
    ensures { result ≡ eqb length pages }
{
    length == pages as usize
}

// A vector with a bit for each frame. It asks for the same.
pub fn vector_fits(length: usize, frames: u64) -> bool
    requires { frames < 2 ^ 63 }
    ensures { result ≡ eqb length (vector_bytes frames) }
{
    length == vector_bytes(frames)
}

// Question 7 of the start, by the record's V and F: there is no state yet.
pub fn start_in_order(pages: u16, frames: u16, shadow: usize, map: usize, exclusion: usize) -> bool
    ensures { result ≡ in_order true (eqb shadow pages ∷ eqb map pages ∷ eqb exclusion (vector_bytes frames) ∷ []) }
{
    entries_fit(shadow, pages as u64)
        && entries_fit(map, pages as u64)
        && vector_fits(exclusion, frames as u64)
}

// Question 7 of a synchronisation from a tree, and of an ask (K6): no kernel table is lent.
// `&` compares the three lengths without a branch between, which takes ten instructions fewer in an ask than `&&`.
pub fn three_tables_in_order(s: State, shadow: usize, map: usize, exclusion: usize) -> bool
    ensures { result ≡ in_order (state_in_order s) (eqb shadow s.pages ∷ eqb map s.pages ∷ eqb exclusion (vector_bytes s.frames) ∷ []) }
{
    state_in_order(s)
        && entries_fit(shadow, s.pages)
            & entries_fit(map, s.pages)
            & vector_fits(exclusion, s.frames)
}

// Question 7 of synchronise one and all.
pub fn sync_in_order(s: State, kernel: usize, shadow: usize, map: usize, exclusion: usize) -> bool
    ensures { result ≡ in_order (state_in_order s) (eqb kernel s.pages ∷ eqb shadow s.pages ∷ eqb map s.pages ∷ eqb exclusion (vector_bytes s.frames) ∷ []) }
{
    three_tables_in_order(s, shadow, map, exclusion) && entries_fit(kernel, s.pages)
}

// Question 7 of fetch, enter and leave, which are lent the shadow table alone.
pub fn shadow_in_order(s: State, shadow: usize) -> bool
    ensures { result ≡ in_order (state_in_order s) (eqb shadow s.pages ∷ []) }
{
    state_in_order(s) && entries_fit(shadow, s.pages)
}

// Question 7 of a write.
pub fn write_in_order(s: State, shadow: usize, exclusion: usize) -> bool
    ensures { result ≡ in_order (state_in_order s) (eqb shadow s.pages ∷ eqb exclusion (vector_bytes s.frames) ∷ []) }
{
    state_in_order(s) && entries_fit(shadow, s.pages) && vector_fits(exclusion, s.frames)
}

// Question 7 of a device write, which is lent a list of devices too.
pub fn device_write_in_order(s: State, exclusion: usize, listed: usize) -> bool
    ensures { result ≡ in_order (state_in_order s) (eqb exclusion (vector_bytes s.frames) ∷ eqb listed s.devices ∷ []) }
{
    state_in_order(s) && vector_fits(exclusion, s.frames) && entries_fit(listed, s.devices)
}

// Question 7 of a commit and of a drop (K6).

pub fn commit_in_order(s: State, shadow: usize, map: usize) -> bool
    ensures { result ≡ in_order (state_in_order s) (eqb shadow s.pages ∷ eqb map s.pages ∷ []) }
{
    state_in_order(s) && entries_fit(shadow, s.pages) && entries_fit(map, s.pages)
}

pub fn drop_in_order(s: State, exclusion: usize) -> bool
    ensures { result ≡ in_order (state_in_order s) (eqb exclusion (vector_bytes s.frames) ∷ []) }
{
    state_in_order(s) && vector_fits(exclusion, s.frames)
}
