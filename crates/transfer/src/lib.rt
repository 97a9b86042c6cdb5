// Document 01, "Calls and their two numbers": device write (K5). It goes down its questions in order, and answers its first and last frame
// where none refuses it.

#![tactic(auto)]

ghost use Rattle.std.specs.Prelude.{◌≡◌, List, ◌≤◌, ◌<◌};
ghost use Rattle.std.proofs.Math.ListN;
ghost use Rattle.model.specs.Basics;
ghost use Rattle.model.specs.Calls.{outcome_by, device_write, answer};
ghost use Rattle.model.specs.declared.Device.{Device};
ghost use Rattle.model.specs.Devices.{device_at, in_window};
ghost use Rattle.model.specs.Guard.{Tables, with_exclusion, guard_of};

use model::{Answer, Device, PAGE_BYTES, Refusal, State};

// Question 19 of a transfer from one frame to another: both ends of it lie in the device's window.
#[tactic(auto, using(laws::proofs::AskedLaws::asked), unfolding(model::specs::Devices::in_window, model::specs::Basics::within))]
fn in_window(window: Device, first: u64, last: u64) -> bool
    requires { first ≤ last }
    ensures { result ≡ Basics.both (in_window window first) (in_window window last) }
{
    window.first as u64 <= first && last <= window.last as u64
}

// A device write, by how long the list of devices is and the device's record in it, if it has one: whatever the list has elsewhere, the answer is the
// same. The list itself is not lent here, since `device_write` promises its answer of every list of that length with that record.
#[tactic(auto, using(laws::proofs::AskedLaws::answered, crate::proofs::TransferLaws::transfers))]
pub fn device_write(
    s: State,
    exclusion: &[u8],
    listed: usize,
    window: Device,
    device: u64,
    address: u64,
    length: u64,
) -> Answer
    ensures { (t : Tables) (devices : List Device) → ListN.length devices ≡ listed → (device < listed → device_at devices device ≡ window)
        → outcome_by result s (with_exclusion exclusion.now t)
        ≡ answer (guard_of s (with_exclusion exclusion.now t)) (device_write devices device address length) }
{
    if !lengths::device_write_in_order(s, exclusion.len(), listed) {
        return Err(Refusal::StateOrTable);
    }
    // The device is looked at first, so that each of both questions has a branch of its own; 8 is answered before 18 all the same.
    if listed as u64 <= device {
        if !limits::device_length(length) {
            return Err(Refusal::LengthOutOfRange);
        }
        return Err(Refusal::NoDevice);
    }
    if !limits::device_length(length) {
        return Err(Refusal::LengthOutOfRange);
    }
    if !limits::transfer_exists(address, length, s.frames) {
        return Err(Refusal::DoesNotExist);
    }
    let first = address / PAGE_BYTES;
    let last = limits::last_page(address, length);
    if !in_window(window, first, last) {
        return Err(Refusal::OutsideWindow);
    }
    if !bitmap::none_set(exclusion, first, last) {
        return Err(Refusal::Excluded);
    }
    Ok((first, last))
}
