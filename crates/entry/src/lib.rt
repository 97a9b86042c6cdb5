// Document 01, "Entry bits", with requests K1, K3 and K6: the bits of kernel and shadow entries, and kernel entries taken apart. `shadow_entry` makes and
// switches shadow entries.
// Every function gives what its definition in the model gives.

#![tactic(auto)]

ghost use Rattle.std.specs.Prelude.{◌≡◌, ◌+◌, ◌*◌, ◌%◌, ◌^◌, ◌<◌, ◌≤◌, eqb, true, false, MatchOption};
ghost use Rattle.model.specs.Basics.{bit, both};
ghost use Rattle.model.specs.Bits.{present, writable, user_bit, no_execute, kernel_no_execute, approved_mark, frame_of, valid, fields_of, taken_apart};
ghost use Rattle.model.specs.Approvals.{maps, maps_writable};

use model::Fields;

// The weights of the bits. Division and remainder by them are shifts and masks.
pub const PRESENT: u64 = 0x1;

const WRITABLE: u64 = 0x2;

const PRESENT_WRITABLE: u64 = PRESENT + WRITABLE;

pub const USER: u64 = 0x4;

pub const KERNEL_NO_EXECUTE: u64 = 0x200;

pub const APPROVED: u64 = 0x400;

pub const FRAME: u64 = 0x1000;

pub const NO_EXECUTE: u64 = 0x8000_0000_0000_0000;
// Bits 52 to 62, on which the processor faults.
const RESERVED: u64 = 0x7ff0_0000_0000_0000;

// One above the largest number that the 40 bits of a frame hold.
const FRAMES: u64 = 0x100_0000_0000;

// Bit K of an entry: a shift and a mask.
#[tactic(auto, unfolding(model::specs::Basics::bit))]
fn bit<const K: u32>(entry: u64) -> bool
    requires { K < 64 }
    ensures { result ≡ bit K entry }
{
    (entry >> K) % 2 == 1
}

#[tactic(auto, unfolding(model::specs::Bits::present))]
pub fn present(entry: u64) -> bool
    ensures { result ≡ present entry }
{
    bit::<0>(entry)
}

#[tactic(auto, unfolding(model::specs::Bits::writable))]
pub fn writable(entry: u64) -> bool
    ensures { result ≡ writable entry }
{
    bit::<1>(entry)
}

#[tactic(auto, unfolding(model::specs::Bits::user_bit))]
pub fn user_bit(entry: u64) -> bool
    ensures { result ≡ user_bit entry }
{
    bit::<2>(entry)
}

#[tactic(auto, unfolding(model::specs::Bits::kernel_no_execute))]
pub fn kernel_no_execute(entry: u64) -> bool
    ensures { result ≡ kernel_no_execute entry }
{
    bit::<9>(entry)
}

#[tactic(auto, unfolding(model::specs::Bits::approved_mark))]
pub fn approved_mark(entry: u64) -> bool
    ensures { result ≡ approved_mark entry }
{
    bit::<10>(entry)
}

#[tactic(auto, unfolding(model::specs::Bits::no_execute))]
pub fn no_execute(entry: u64) -> bool
    ensures { result ≡ no_execute entry }
{
    bit::<63>(entry)
}

#[tactic(auto, unfolding(model::specs::Bits::frame_of))]
pub fn frame_of(entry: u64) -> u64
    ensures { (result ≡ frame_of entry) × (result < 2 ^ 40) }
{
    entry / FRAME % FRAMES
}

// An entry shifted left once, less 2: bit 63 is gone. The present bit, which weighs 2 then, is clear where it was set, with the bits above as
// they were, and set where it was clear. So one test serves for the present and the reserved bits: to mask the entry and to compare it with
// the present bit takes an instruction more, and a frame made of the entry itself takes a mask.
fn shifted(entry: u64) -> u64
    ensures { (result + 2) % 2 ^ 64 ≡ entry * 2 % 2 ^ 64 }
{
    (entry << 1).wrapping_sub(2)
}

// Whether a kernel entry is present and has no reserved bit, in one test.
#[tactic(auto, using(crate::proofs::ApartLaws::valid_is))]
fn valid(entry: u64) -> bool
    ensures { result ≡ valid entry }
{
    shifted(entry) & (RESERVED | PRESENT) << 1 == 0
}

// A kernel entry that is present and has no reserved bit. `new` alone asks; what is made of its bits asks no more.
#[derive(Clone, Copy)]
pub struct ValidEntry {
    pub bits: u64,
    pub ghost is_valid: { valid bits ≡ true },
}

impl ValidEntry {
    pub fn new(entry: u64) -> Option<ValidEntry>
        ensures { MatchOption result (valid entry ≡ false) (λ v. v.bits ≡ entry) }
    {
        if valid(entry) {
            Some(ValidEntry { bits: entry })
        } else {
            None
        }
    }

    // Shifted, a valid entry has nothing above its frame: the frame takes a shift and no mask.
    #[tactic(auto, using(crate::proofs::ApartLaws::frame_is), unfolding(model::specs::Bits::fields_of, model::specs::Bits::write_through, model::specs::Bits::cache_disable))]
    pub fn fields(self) -> Fields
        ensures { result ≡ fields_of self.bits }
    {
        let bits = self.bits;
        Fields {
            writable: writable(bits),
            user: user_bit(bits),
            write_through: bit::<3>(bits),
            cache_disable: bit::<4>(bits),
            no_execute: no_execute(bits),
            frame: shifted(bits) / (FRAME * 2),
        }
    }

    // Of the fields: a step and a walk take an entry apart for it.
    #[tactic(auto, unfolding(model::specs::Bits::fields_of))]
    pub fn frame(self) -> u64
        ensures { result ≡ frame_of self.bits }
    {
        self.fields().frame
    }
}

// The fields of an entry that is present, or nothing.
#[tactic(auto, unfolding(model::specs::Bits::taken_apart))]
pub fn take_apart(entry: u64) -> Option<Fields>
    ensures { result ≡ taken_apart entry }
{
    let valid = ValidEntry::new(entry)?;
    Some(valid.fields())
}

// The bits of an entry below a weight are those, and its frame is the frame: both parts in one comparison.
#[tactic(auto, using(crate::proofs::MapsLaws::apart))]
fn has<const ABOVE: u64, const BITS: u64>(entry: u64, frame: u16) -> bool
    requires { (BITS < ABOVE) × (ABOVE ≤ 4096) }
    ensures { result ≡ both (eqb (entry % ABOVE) BITS) (eqb (frame_of entry) frame) }
{
    entry % ABOVE + frame_of(entry) * FRAME == BITS + frame as u64 * FRAME
}

// A present shadow entry has the frame (K6).
#[tactic(auto, using(crate::proofs::MapsLaws::present_with))]
pub fn maps(entry: u64, frame: u16) -> bool
    ensures { result ≡ maps frame entry }
{
    has::<WRITABLE, PRESENT>(entry, frame)
}

// One that has it is writable.
#[tactic(auto, using(crate::proofs::MapsLaws::writable_with))]
pub fn maps_writable(entry: u64, frame: u16) -> bool
    ensures { result ≡ maps_writable frame entry }
{
    has::<USER, PRESENT_WRITABLE>(entry, frame)
}
