// The tests behind questions 8 and 9, each a function that a call or a crate above can ask.
// Sums of address and length are exact: no test computes one. `last_page` does, once both questions are settled.

#![tactic(auto)]

ghost use Rattle.std.specs.Prelude.{◌≡◌, ◌*◌, ◌≤◌, ◌<◌, ltb, get_or};
ghost use Rattle.model.specs.Basics;
ghost use Rattle.model.specs.Basics.{within};
ghost use Rattle.model.specs.Sizes.{page_bytes, last_byte, last_page};

use model::{MOST_TRANSFERRED, MOST_WRITTEN, PAGE_BYTES, State};
use ranges::in_range;

// Question 8.

pub fn write_length(length: u64) -> bool
    ensures { result ≡ within 1 16 length }
{
    in_range(1, MOST_WRITTEN, length)
}

pub fn device_length(length: u64) -> bool
    ensures { result ≡ within 1 1048576 length }
{
    in_range(1, MOST_TRANSFERRED, length)
}

// Question 9.

pub fn page_exists(page: u64, pages: u64) -> bool
    ensures { result ≡ ltb page pages }
{
    page < pages
}

// The page that an ask names is below V, and its frame below F (K6).
#[tactic(auto, unfolding(model::specs::Basics::both))]
pub fn pair_exists(page: u64, frame: u64, pages: u64, frames: u64) -> bool
    ensures { result ≡ Basics.both (ltb page pages) (ltb frame frames) }
{
    page < pages && frame < frames
}

// The last byte of a run of bytes is below a limit. A run of no bytes ends one below its address, or at 0.
#[tactic(auto, using(std::proofs::lemmas::Bool::Decides::nat_tests), unfolding(model::specs::Sizes::last_byte))]
pub fn ends_below(address: u64, length: u64, limit: u64) -> bool
    ensures { result ≡ ltb (last_byte address length) limit }
{
    limit != 0 && address <= limit && length <= limit - address
}

// The page of a write's last byte is below V. Question 7 has settled that V is in its range, so that its bytes can be counted.
#[tactic(auto, using(std::proofs::lemmas::Bool::Decides::nat_tests), unfolding(model::specs::Sizes::last_page))]
pub fn write_exists(address: u64, length: u64, pages: u64) -> bool
    requires { pages ≤ 2048 }
    ensures { result ≡ ltb (last_page address length) pages }
{
    ends_below(address, length, pages * PAGE_BYTES)
}

// A transfer's last byte is below F frames. Question 7 has settled F in the same way.
pub fn transfer_exists(address: u64, length: u64, frames: u64) -> bool
    requires { frames ≤ 4096 }
    ensures { result ≡ ltb (last_byte address length) (frames * page_bytes) }
{
    ends_below(address, length, frames * PAGE_BYTES)
}

// The page of a write's last byte, or the frame of a transfer's. It asks for what questions 8 and 9 have settled, so that the sum does not wrap.
#[tactic(auto, unfolding(model::specs::Sizes::last_page, model::specs::Sizes::last_byte))]
pub fn last_page(address: u64, length: u64) -> u64
    requires { (1 ≤ length) × (last_page address length < 65536) }
    ensures { result ≡ last_page address length }
{
    (address + length - 1) / PAGE_BYTES
}

// The page of an entry index, and 0 where there is no such index.
pub fn entry_page(s: State, index: u64) -> u64
    ensures { result ≡ get_or s.entry_pages index 0 }
{
    s.entry_pages.get(index as usize).copied().unwrap_or(0)
}

// An entry index is below e, and its page below V.
#[tactic(auto, unfolding(model::specs::Basics::both))]
pub fn entry_exists(s: State, index: u64) -> bool
    ensures { result ≡ Basics.both (ltb index s.entry_count) (ltb (get_or s.entry_pages index 0) s.pages) }
{
    index < s.entry_count && entry_page(s, index) < s.pages
}
