// Document 01, "The drill program": reads a policy and at most 1,024 calls, and writes a line for each and the closing lines.
// Everything that it computes is proved in the crates below: here it reads, calls them, writes and counts. A failed read or write ends
// `main` with its error.

#![tactic(auto)]

ghost use Rattle.std.specs.Prelude.{◌≤◌, ◌≡◌, IfOk, length};

use drill_calls::{CALL_BYTES, Machine, POLICY_BYTES};
use lines::Line;
use model::{MOST_PAGES, VECTOR_BYTES};
use std::io;
use std::io::Read;
use std::ops::ControlFlow;

// Reads until the buffer is full or the input ends, and gives how many bytes it put at the buffer's start. `read_exact` does not say how many
// came before the input's end.
fn read_full(input: &mut impl Read, buffer: &mut [u8]) -> io::Result<usize>
    ensures { IfOk result (λ n. n ≤ length buffer.new) }
{
    let mut done = 0;
    while done < buffer.len() {
        let count = input.read(&mut buffer[done..])?;
        if count == 0 {
            break;
        }
        done += count;
    }
    Ok(done)
}

// Takes 8 bytes, and the rest of the policy where there is one; gives how many there were. The room holds the longest policy.
fn read_policy(input: &mut impl Read, room: &mut [u8]) -> io::Result<usize>
    requires { length room.old ≡ 8200 }
    ensures { IfOk result (λ n. n ≤ 8200) }
{
    let first = read_full(input, &mut room[..8])?;
    if first < 8 {
        return Ok(first);
    }
    let extent = drill_calls::policy_extent(room);
    Ok(8 + read_full(input, &mut room[8..extent])?)
}

// Takes at most 16 bytes and makes the call.
fn take_turn(
    input: &mut impl Read,
    machine: &mut Machine,
) -> io::Result<ControlFlow<Option<Line>, Line>> {
    let mut call = [0u8; CALL_BYTES];
    let taken = read_full(input, &mut call)?;
    Ok(machine.turn_line(&call[..taken]))
}

// As many calls as there are, and no more than the limit, each with its line. The loop is the one of `loops_as_defined`, and so no `for`.
fn take_turns(input: &mut impl Read, output: &impl Print, machine: &mut Machine) -> io::Result<()> {
    let mut left = drill_loop::call_limit();
    while drill_loop::goes_on(left) {
        let turn = take_turn(input, machine)?;
        left = drill_loop::left_after(left, turn.is_continue());
        match turn {
            ControlFlow::Continue(line) | ControlFlow::Break(Some(line)) => {
                output.write_all(line.as_bytes())?
            }
            ControlFlow::Break(None) => {}
        }
    }
    Ok(())
}

// The shadow entries in rising order, and the share.
fn write_closing(
    output: &impl Print,
    frames: u16,
    shadow: &[u64],
    exclusion: &[u8],
) -> io::Result<()> {
    for entry in shadow {
        output.write_all(&lines::entry_line(*entry))?;
    }
    output.write_all(lines::share_line(frames, exclusion).as_bytes())
}

// The drill on tables of the policy's sizes, all zeros. A refused start writes its line alone.
fn drill_on(
    input: &mut impl Read,
    output: &impl Print,
    policy: &[u8],
    kernel: &mut [u64],
    shadow: &mut [u64],
    map: &mut [u16],
    exclusion: &mut [u8],
) -> io::Result<()> {
    let mut state = start::refused_state();
    let line = match drill_calls::open(policy, &mut state, shadow, map, exclusion) {
        ControlFlow::Continue(line) => line,
        ControlFlow::Break(line) => return output.write_all(line.as_bytes()),
    };
    output.write_all(line.as_bytes())?;
    let frames = state.frames as u16;
    let mut machine = Machine {
        state,
        kernel,
        shadow,
        map,
        exclusion,
        devices: drill_calls::windows(frames),
    };
    take_turns(input, output, &mut machine)?;
    let Machine {
        shadow,
        exclusion,
        ..
    } = machine;
    write_closing(output, frames, shadow, exclusion)
}

fn main(rt: HostRuntime) -> io::Result<()> {
    let mut input = rt.stdin();
    let mut room = [0u8; POLICY_BYTES];
    let taken = read_policy(&mut input, &mut room)?;
    let pages = drill_calls::pages_lent(&room[..taken]);
    let bytes = drill_calls::bytes_lent(&room[..taken]);
    let mut kernel = [0u64; MOST_PAGES as usize];
    let mut shadow = [0u64; MOST_PAGES as usize];
    let mut map = [0u16; MOST_PAGES as usize];
    let mut exclusion = [0u8; VECTOR_BYTES];
    drill_on(
        &mut input,
        &rt,
        &room[..taken],
        &mut kernel[..pages],
        &mut shadow[..pages],
        &mut map[..pages],
        &mut exclusion[..bytes],
    )
}
