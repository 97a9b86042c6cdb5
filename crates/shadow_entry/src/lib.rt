// Document 01, "Entry bits", with requests K3 and K6: shadow entries made, and switched from one mode to the other.
// Every function gives what its definition in the model gives; two make it of a valid kernel entry.

#![tactic(auto)]

ghost use Rattle.std.specs.Prelude.{◌≡◌, true, cond, not, ◌/◌, ◌^◌, ◌≤◌};
ghost use Rattle.std.specs.Int.Bits.{bit_xor};
ghost use Rattle.model.specs.Basics.{differs, flag};
ghost use Rattle.model.specs.Bits.{fields_of, approved, ordinary, inspected};
ghost use Rattle.model.specs.Switch.{no_execute_in, switched};

use entry::{APPROVED, FRAME, KERNEL_NO_EXECUTE, NO_EXECUTE, PRESENT, USER, ValidEntry, user_bit};

// The weight of bit 5: an ordinary entry has the bits below it as the kernel entry has them.
const COPIED: u64 = 0x20;

// The weight where the bit is set. The bound settles that a sum of different weights does not wrap.
fn weight_if(b: bool, weight: u64) -> u64
    ensures { (result ≡ cond b weight 0) × (result ≤ weight) }
{
    if b { weight } else { 0 }
}

#[tactic(auto, unfolding(model::specs::Bits::approved, model::specs::Bits::approved_no_execute, model::specs::Basics::flag))]
pub fn approved(user: bool, frame: u16) -> u64
    ensures { result ≡ approved user frame }
{
    1 + APPROVED + frame as u64 * FRAME + weight_if(user, NO_EXECUTE)
}

// The ordinary entry of a kernel entry. It asks for a valid one, which step 5 has: then all bits but 5 to 11 are copied as they are, without a
// mask for the reserved bits. Bit 9 is bit 63 of the kernel entry; bit 63 is that bit too, and is set in kernel mode and where bit 2 is clear.
#[tactic(auto, using(crate::proofs::OrdinaryLaws::ordinary_is, crate::proofs::OrdinaryLaws::copied_fits))]
pub fn ordinary_of(user: bool, entry: ValidEntry) -> u64
    ensures { result ≡ ordinary user (fields_of entry.bits) }
{
    let entry = entry.bits;
    entry / FRAME * FRAME + entry % COPIED + entry / (NO_EXECUTE / KERNEL_NO_EXECUTE)
        | weight_if(!user | !user_bit(entry), NO_EXECUTE)
}

// The entry of a kernel entry whose frame is pending (K6): bits 2 to 4 and the frame as they are, bit 1 clear, bit 9 set. Where bit 9 is set the rule for an
// ordinary entry sets bit 63 in both modes, so that no mode is asked. As above it asks for a valid entry.
#[tactic(auto, using(crate::proofs::OrdinaryLaws::inspected_is))]
pub fn inspected_of(entry: ValidEntry) -> u64
    ensures { result ≡ ordinary true (inspected (fields_of entry.bits)) }
{
    let entry = entry.bits;
    entry / FRAME * FRAME + entry % COPIED / USER * USER + PRESENT + KERNEL_NO_EXECUTE | NO_EXECUTE
}

// Bit 63 of the result is whether the entry may be executed in the mode: an approved one in kernel mode, an ordinary one in user mode by
// bits 2 and 9. Its other bits mean nothing. A shift left brings bit 2, 9 or 10 to bit 63: a switch goes without a branch.
#[tactic(auto, using(crate::proofs::SwitchLaws::executable_user, crate::proofs::SwitchLaws::executable_kernel))]
fn executable(user: bool, entry: u64) -> u64
    ensures { result / 2 ^ 63 ≡ flag (not (no_execute_in user entry)) 0 }
{
    if user {
        entry << 61 & !(entry << 53 | entry << 54)
    } else {
        entry << 53
    }
}

// 2^63 where a switch to the mode changes bit 63 of the entry, and 0 elsewhere. An entry that is not present is not changed.
// `entry ^ change` is the entry after the switch, and `change / 2^63` counts it.
pub fn switch_change(user: bool, entry: u64) -> u64
    ensures { (bit_xor entry result ≡ switched user entry) × (result / 2 ^ 63 ≡ differs entry (switched user entry)) × (result / 2 ^ 63 ≤ 1) }
{
    !(entry ^ executable(user, entry)) & entry << 63
}
