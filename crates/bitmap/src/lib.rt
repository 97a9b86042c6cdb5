// Document 01, "What the guard keeps": the exclusion vector, a bit for each frame, read, set and cleared.
// `test_bit`, `set_bit` and `clear_bit` are total: a byte past the vector's end counts as 0 and is not written.

#![tactic(auto)]

ghost use Rattle.std.specs.Prelude.{◌≡◌, true, false, not, cond, suc, ◌-◌, ◌*◌, ◌/◌, ◌≤◌, ◌<◌, eqb, length};
ghost use Rattle.model.specs.Basics.{bit, every_from};
ghost use Rattle.model.specs.Guard.{has_bit, byte_of, with_bit};

// The bit of a frame that has a byte in the vector, so that no length is tested: question 7 and the limit at F have settled that.
#[tactic(auto, unfolding(model::specs::Basics::bit, model::specs::Guard::has_bit))]
pub fn test_bit_within(exclusion: &[u8], frame: u64) -> bool
    requires { frame / 8 < length exclusion.now }
    ensures { result ≡ has_bit exclusion.now frame }
{
    (exclusion[(frame / 8) as usize] >> (frame % 8)) % 2 == 1
}

#[tactic(auto, using(crate::proofs::BitmapLaws::no_bit_past))]
pub fn test_bit(exclusion: &[u8], frame: u64) -> bool
    ensures { result ≡ has_bit exclusion.now frame }
{
    ((frame / 8) as usize) < exclusion.len() && test_bit_within(exclusion, frame)
}

// Sets the bit of a frame without testing the length: the caller has settled that the vector has a byte for it.
#[tactic(auto, using(crate::proofs::BitmapLaws::bit_set))]
pub fn set_bit_within(exclusion: &mut [u8], frame: u64)
    requires { frame / 8 < length exclusion.old }
    ensures { exclusion.new ≡ with_bit true exclusion.old frame }
{
    exclusion[(frame / 8) as usize] |= 1 << (frame % 8);
}

#[tactic(auto, using(crate::proofs::BitmapLaws::with_bit_past))]
pub fn set_bit(exclusion: &mut [u8], frame: u64)
    ensures { exclusion.new ≡ with_bit true exclusion.old frame }
{
    if ((frame / 8) as usize) < exclusion.len() {
        set_bit_within(exclusion, frame);
    }
}

// The opposite of `set_bit`.
#[tactic(auto, using(crate::proofs::BitmapLaws::bit_cleared, crate::proofs::BitmapLaws::with_bit_past))]
pub fn clear_bit(exclusion: &mut [u8], frame: u64)
    ensures { exclusion.new ≡ with_bit false exclusion.old frame }
{
    // By the index: std's contract of `get_mut` says nothing of the slice afterwards, so that the proof with it did not close.
    let at = (frame / 8) as usize;
    if at < exclusion.len() {
        exclusion[at] &= !(1 << (frame % 8));
    }
}

// A range of frames is looked at by bytes, eight frames at once.

// No bit of a byte from one on is set.
#[tactic(auto, using(crate::proofs::RangeLaws::clear_above))]
fn clear_from(byte: u8, first: u64) -> bool
    requires { first < 8 }
    ensures { result ≡ every_from (λ j. not (bit j byte)) first (8 - first) }
{
    byte >> first == 0
}

// No bit of a byte up to one is set.
#[tactic(auto, using(crate::proofs::RangeLaws::weight_positive, crate::proofs::RangeLaws::clear_below))]
fn clear_up_to(byte: u8, last: u64) -> bool
    requires { last < 8 }
    ensures { result ≡ every_from (λ j. not (bit j byte)) 0 (suc last) }
{
    byte as u64 % (2 << last) == 0
}

// No bit of a byte from one up to another is set.
fn clear_between(byte: u8, first: u64, last: u64) -> bool
    requires { (first ≤ last) × (last < 8) }
    ensures { result ≡ every_from (λ j. not (bit j byte)) first (suc (last - first)) }
{
    clear_up_to(byte >> first, last - first)
}

// No frame of the bytes from one up to another, without it, is excluded. The bytes are joined and tested once.
fn clear_bytes(exclusion: &[u8], from: usize, to: usize) -> bool
    requires { (from ≤ to) × (to ≤ length exclusion.now) }
    ensures { result ≡ every_from (λ f. not (has_bit exclusion.now f)) (from * 8) ((to - from) * 8) }
{
    exclusion[from..to].iter().fold(0, |all, byte| all | *byte) == 0
}

// No frame from first to last is excluded. The vector has a byte for the last: questions 7 and 9 have settled that.
pub fn none_set(exclusion: &[u8], first: u64, last: u64) -> bool
    requires { (first ≤ last) × (last / 8 < length exclusion.now) }
    ensures { result ≡ every_from (λ f. not (has_bit exclusion.now f)) first (suc (last - first)) }
{
    let head = (first / 8) as usize;
    let tail = (last / 8) as usize;
    if head == tail {
        clear_between(exclusion[head], first % 8, last % 8)
    } else {
        clear_from(exclusion[head], first % 8)
            && clear_up_to(exclusion[tail], last % 8)
            && clear_bytes(exclusion, head + 1, tail)
    }
}
