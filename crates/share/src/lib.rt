// The share of excluded frames that the drill prints.

#![tactic(auto)]

ghost use Rattle.std.specs.Prelude.{◌*◌, ◌≤◌, ◌≡◌};
ghost use Rattle.model.specs.Guard.{has_bit};
ghost use Rattle.drill_model.specs.Drill.{count_from, nearest, share};

use std::cmp::Ordering;

// How many of the frames are excluded.
fn excluded_count(frames: u16, exclusion: &[u8]) -> u64
    ensures { (result ≡ count_from (has_bit exclusion.now) 0 frames) × (result ≤ frames) }
{
    let excluded = (0..frames as u64).filter(|frame| bitmap::test_bit(exclusion, *frame));
    excluded.count() as u64
}

// So many frames in percent of all, to the nearest, an exact half to the even number (K7).
fn percent(count: u64, frames: u16) -> u64
    requires { (1 ≤ frames) × (count ≤ frames) }
    ensures { result ≡ nearest (100 * count) frames }
{
    let all = frames as u64;
    let down = 100 * count / all;
    let next = down + 1;
    let twice = 2 * (100 * count % all);
    match twice.cmp(&all) {
        Ordering::Less => down,
        Ordering::Greater => next,
        Ordering::Equal => { if down % 2 == 0 { down } else { next } }
    }
}

// The share of excluded frames in percent. Of no frames it is 0.
pub fn share_of(frames: u16, exclusion: &[u8]) -> u64
    ensures { result ≡ share frames exclusion.now }
{
    if frames == 0 {
        return 0;
    }
    percent(excluded_count(frames, exclusion), frames)
}
