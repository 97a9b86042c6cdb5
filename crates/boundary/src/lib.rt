// The calls on a lent state that neither synchronise nor approve, on numbers and lent runs: a number out. The crate `exports` hands them to C, and
// include/guard.h documents them. The definitions of every exported call stand in `boundary_model`, and the laws that all of them cite here.
// Each promises what the model answers on the decoded state, by one equation on all inputs. A call that only reads goes by `and_then`. Another is a match,
// since its answer and the state after it are both handed on: a closure that gives both is no plainer.

#![tactic(auto)]

ghost use Rattle.std.specs.Prelude.{List, ◌<◌, ◌≡◌};
ghost use Rattle.std.proofs.Math.ListN;
ghost use Rattle.model.specs.Guard.{Tables, with_shadow, with_exclusion};
ghost use Rattle.model.specs.Calls;
ghost use Rattle.model.specs.declared.Device.{Device};
ghost use Rattle.model.specs.Devices.{device_at};
ghost use Rattle.model.specs.Calls.{device_write};
ghost use Rattle.boundary_model.specs.Boundary.{returned, call_at};

use encode::{ModeAndPage, RunningPage};
use model::Device;

pub fn fetch(state: &mut [u64], shadow: &[u64], page: u64, numbers: &mut [u64]) -> u64
    ensures { (t : Tables) → returned result state.new numbers.new (with_shadow shadow.now t)
        ≡ call_at state.old numbers.old (with_shadow shadow.now t) (Calls.fetch page) }
{
    match decode::state_of(state, numbers, decode::NUMBERS) {
        Ok(mut s) => {
            let answer = access::fetch(&mut s, shadow, page);
            encode::put::<RunningPage>(state, numbers, answer, s)
        }
        Err(refusal) => encode::reply(numbers, Err(refusal)),
    }
}

pub fn write(
    state: &[u64],
    shadow: &[u64],
    exclusion: &[u8],
    address: u64,
    length: u64,
    numbers: &mut [u64],
) -> u64
    ensures { (t : Tables) → returned result state.now numbers.new (with_shadow shadow.now (with_exclusion exclusion.now t))
        ≡ call_at state.now numbers.old (with_shadow shadow.now (with_exclusion exclusion.now t)) (Calls.write address length) }
{
    let answer = decode::state_of(state, numbers, decode::NUMBERS).and_then(|s| access::write(
        s, shadow, exclusion, address, length,
    ));
    encode::reply(numbers, answer)
}

pub fn enter(state: &mut [u64], shadow: &mut [u64], index: u64, numbers: &mut [u64]) -> u64
    ensures { (t : Tables) → returned result state.new numbers.new (with_shadow shadow.new t)
        ≡ call_at state.old numbers.old (with_shadow shadow.old t) (Calls.enter index) }
{
    match decode::state_of(state, numbers, decode::NUMBERS) {
        Ok(mut s) => {
            let answer = modes::enter(&mut s, shadow, index);
            encode::put::<ModeAndPage>(state, numbers, answer, s)
        }
        Err(refusal) => encode::reply(numbers, Err(refusal)),
    }
}

pub fn leave(state: &mut [u64], shadow: &mut [u64], page: u64, numbers: &mut [u64]) -> u64
    ensures { (t : Tables) → returned result state.new numbers.new (with_shadow shadow.new t)
        ≡ call_at state.old numbers.old (with_shadow shadow.old t) (Calls.leave page) }
{
    match decode::state_of(state, numbers, decode::NUMBERS) {
        Ok(mut s) => {
            let answer = modes::leave(&mut s, shadow, page);
            encode::put::<ModeAndPage>(state, numbers, answer, s)
        }
        Err(refusal) => encode::reply(numbers, Err(refusal)),
    }
}

// A device write, by how long the list of devices is and the device's record in it, if it has one (K5).
pub fn device_write(
    state: &[u64],
    exclusion: &[u8],
    listed: usize,
    window: Device,
    device: u64,
    address: u64,
    length: u64,
    numbers: &mut [u64],
) -> u64
    ensures { (t : Tables) (devices : List Device) → ListN.length devices ≡ listed → (device < listed → device_at devices device ≡ window)
        → returned result state.now numbers.new (with_exclusion exclusion.now t)
        ≡ call_at state.now numbers.old (with_exclusion exclusion.now t) (device_write devices device address length) }
{
    let answer = decode::state_of(state, numbers, decode::NUMBERS).and_then(
        |s| transfer::device_write(s, exclusion, listed, window, device, address, length),
    );
    encode::reply(numbers, answer)
}
