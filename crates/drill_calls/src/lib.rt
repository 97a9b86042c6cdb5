// Document 01, "The drill program": the policy's extent, the start, a call's fields, and the turn that one call makes.
// Each function promises a definition of `drill_model` on all inputs, a call of any length included.

#![tactic(auto)]

ghost use Rattle.std.specs.Prelude.{◌≡◌, ◌≤◌, ◌<◌, MatchResult};
ghost use Rattle.model.specs.Guard.{tables};
ghost use Rattle.model.specs.Refusals.{number_of};
ghost use Rattle.model.specs.declared.Refusal.TheVariants.{UnknownKind};
ghost use Rattle.model.specs.Calls.{refused, start_of};
ghost use Rattle.drill_model.specs.Drill;
ghost use Rattle.drill_model.specs.Drill.{drill_given, windows_of, policy_extent, kind_of, index_of, length_of, value_of, edited, performed, line};
ghost use Rattle.lines.specs.Text.{text, kind_number, call_text};
ghost use Rattle.drill_calls.specs.Turns.{SameTables, drill_by, performed_by, turn_by, turn_line_by, opening_of, opened_by, pages_lent, bytes_lent, OpensAsDefined};

use lines::{CallLine, Kind, Label, Line};
use model::{Answer, Device, MOST_DEVICES, MOST_PAGES, Refusal, State};
use std::ops::ControlFlow;

// The bytes of a call.
pub const CALL_BYTES: usize = 16;

// The bytes of the longest policy.
pub const POLICY_BYTES: usize = 8200;

// The policy and the start.

// The policy's bytes: 8, and 4 × n more if n is 1 to 2,048. The first 8 bytes settle it.
pub fn policy_extent(input: &[u8]) -> usize
    ensures { (result ≡ policy_extent input.now) × (8 ≤ result) × (result ≤ 8200) }
{
    let count = policy::padded_number(input, 4);
    if ranges::in_range(1, MOST_PAGES, count as u64) {
        8 + 4 * count as usize
    } else {
        8
    }
}

// The tables that the start of a record is lent, by its V and F. What is out of range never reaches a table.

pub fn pages_lent(bytes: &[u8]) -> usize
    ensures { (result ≡ pages_lent bytes.now) × (result ≤ 2048) }
{
    let pages = policy::padded_number(bytes, 0);
    if ranges::pages_in_range(pages as u64) {
        pages as usize
    } else {
        0
    }
}

pub fn bytes_lent(bytes: &[u8]) -> usize
    ensures { (result ≡ bytes_lent bytes.now) × (result ≤ 512) }
{
    let frames = policy::padded_number(bytes, 2);
    if ranges::frames_in_range(frames as u64) {
        lengths::vector_bytes(frames as u64)
    } else {
        0
    }
}

// The start, with its line. Where it is accepted calls follow. F is in its range, or 0 where the start is refused, which leaves the state of zeros.
pub fn open(
    bytes: &[u8],
    s: &mut State,
    shadow: &mut [u64],
    map: &mut [u16],
    exclusion: &mut [u8],
) -> ControlFlow<Line, Line>
    ensures opened { opened_by result s.new (tables shadow.new map.new exclusion.new)
        ≡ opening_of (start_of drill_given bytes.now (tables shadow.old map.old exclusion.old)) }
    ensures few { s.new.frames ≤ 4096 }
{
    let answer = start::start(bytes, MOST_DEVICES as u64, s, shadow, map, exclusion);
    let line = lines::call_line(Label::Start.into(), answer, s.mode);
    match answer {
        Ok(_) => ControlFlow::Continue(line),
        Err(_) => ControlFlow::Break(line),
    }
}

// The drill's devices: as many as there may be, each with all frames as window (K5).
#[tactic(auto, unfolding(drill_model::specs::Drill::windows_of))]
pub fn windows(frames: u16) -> [Device; MOST_DEVICES]
    ensures { result ≡ windows_of frames }
{
    let last = frames.saturating_sub(1);
    [Device { first: 0, last }; MOST_DEVICES]
}

// What is lent makes no difference to the start of the drill as it is defined, on tables of the record's own sizes.
pub fn opens_as_defined()
    ensures { OpensAsDefined }
{}

// The fields of a call.
#[derive(Clone, Copy)]
pub struct Call {
    pub kind: Kind,
    pub index: u64,
    pub length: u64,
    pub value: u64,
}

impl TryFrom<[u8; CALL_BYTES]> for Call {
    type Error = Refusal;

    ghost try_from_gives = { λ bytes r. MatchResult r
        (λ call. (kind_number call.kind ≡ kind_of bytes) × (call.index ≡ index_of bytes) × (call.length ≡ length_of bytes) × (call.value ≡ value_of bytes))
        (λ refusal. (refusal ≡ UnknownKind) × (8 ≤ kind_of bytes)) };

    fn try_from(bytes: [u8; CALL_BYTES]) -> Result<Call, Refusal> {
        Ok(Call {
            kind: Kind::try_from(bytes[0])?,
            index: u16::from_le_bytes([bytes[2], bytes[3]]) as u64,
            length: u32::from_le_bytes([bytes[4], bytes[5], bytes[6], bytes[7]]) as u64,
            value: u64::from_le_bytes([
                bytes[8], bytes[9], bytes[10], bytes[11], bytes[12], bytes[13], bytes[14],
                bytes[15],
            ]),
        })
    }
}

// The guard's state and tables, the kernel table and the list of devices: what the drill's calls are made on. After every call it holds
// the same tables as before, so that whoever lent them finds in them what the call made.
#[derive(Drop)]
pub struct Machine<'a> {
    pub state: State,
    pub kernel: &'a mut [u64],
    pub shadow: &'a mut [u64],
    pub map: &'a mut [u16],
    pub exclusion: &'a [u8],
    pub devices: [Device; MOST_DEVICES],
}

impl Machine<'_> {
    // Kind 0. The guard's part of the drill stays as it is, whatever it is; question 9 looks at its V alone.
    fn edit(&mut self, page: u64, value: u64) -> Answer
        ensures edited { performed_by result (drill_by self.new) ≡ edited (drill_by self.old) page value }
        ensures same { SameTables self.old self.new }
    {
        if !limits::page_exists(page, self.state.pages) {
            return Err(Refusal::DoesNotExist);
        }
        if page < self.kernel.len() as u64 {
            self.kernel[page as usize] = value;
        }
        Ok((0, 0))
    }

    // The call of a kind. Each table is lent by itself before, so that a call can have several.
    fn perform(&mut self, call: Call) -> Answer
        ensures performed { performed_by result (drill_by self.new) ≡ performed (drill_by self.old) (kind_number call.kind) call.index call.length call.value }
        ensures same { SameTables self.old self.new }
    {
        let exclusion = self.exclusion;
        let devices = self.devices;
        let kernel = &mut *self.kernel;
        let shadow = &mut *self.shadow;
        let map = &mut *self.map;
        let state = &mut self.state;
        match call.kind {
            Kind::Edit => self.edit(call.index, call.value),
            Kind::SyncPage => sync::sync_page(*state, kernel, shadow, map, exclusion, call.index),
            Kind::SyncAll => sync::sync_all(*state, kernel, shadow, map, exclusion),
            Kind::Fetch => access::fetch(state, shadow, call.index),
            Kind::Write => access::write(*state, shadow, exclusion, call.value, call.length),
            Kind::Enter => modes::enter(state, shadow, call.index),
            Kind::Leave => modes::leave(state, shadow, call.index),
            Kind::DeviceWrite => {
                let window = devices::look_up(&devices, call.index as usize);
                transfer::device_write(
                    *state,
                    exclusion,
                    MOST_DEVICES,
                    window,
                    call.index,
                    call.value,
                    call.length,
                )
            }
        }
    }

    // The line X of question 14 or 15, which ends the calls.
    #[tactic(auto, unfolding(model::specs::Calls::reply_of))]
    fn end(&self, refusal: Refusal) -> Line
        ensures { text result ≡ line 88 (refused (number_of refusal)) self.now.state.mode }
    {
        lines::call_line(Label::End.into(), Err(refusal), self.state.mode)
    }

    // One call, of the bytes that remain, at most 16 of them: its line, and whether calls go on. Of no bytes there is no line.
    pub fn turn_line(&mut self, bytes: &[u8]) -> ControlFlow<Option<Line>, Line>
        ensures turned { turn_line_by result (drill_by self.new) ≡ Drill.turn (drill_by self.old) bytes.now }
        ensures same { SameTables self.old self.new }
    {
        if bytes.is_empty() {
            return ControlFlow::Break(None);
        }
        let Some(bytes) = bytes.as_array::<CALL_BYTES>() else {
            return ControlFlow::Break(Some(self.end(Refusal::CallCutShort)));
        };
        let call = match Call::try_from(*bytes) {
            Ok(call) => call,
            Err(refusal) => return ControlFlow::Break(Some(self.end(refusal))),
        };
        let answer = self.perform(call);
        let mode = self.state.mode;
        let label = u8::from(Label::Call(call.kind));
        ControlFlow::Continue(lines::call_line(label, answer, mode))
    }

    // The line of `end`, as a value.
    #[tactic(auto, unfolding(model::specs::Calls::reply_of))]
    fn ended(&self, refusal: Refusal) -> CallLine
        ensures { call_text result ≡ line 88 (refused (number_of refusal)) self.now.state.mode }
    {
        CallLine {
            label: Label::End,
            answer: Err(refusal),
            mode: self.state.mode,
        }
    }

    // The same turn, whose line is a value: for a caller that asks for the answer.
    pub fn turn(&mut self, bytes: &[u8]) -> ControlFlow<Option<CallLine>, CallLine>
        ensures turned { turn_by result (drill_by self.new) ≡ Drill.turn (drill_by self.old) bytes.now }
        ensures same { SameTables self.old self.new }
    {
        let Some(bytes) = bytes.as_array::<CALL_BYTES>() else {
            let line = if bytes.is_empty() {
                None
            } else {
                Some(self.ended(Refusal::CallCutShort))
            };
            return ControlFlow::Break(line);
        };
        let call = match Call::try_from(*bytes) {
            Ok(call) => call,
            Err(refusal) => return ControlFlow::Break(Some(self.ended(refusal))),
        };
        let done = self.perform(call);
        let after = self.state.mode;
        ControlFlow::Continue(CallLine {
            label: Label::Call(call.kind),
            answer: done,
            mode: after,
        })
    }
}

#[cfg(test)]
mod tests {
    use super::*;
    use lines::{EntryLine, ShareLine};
    use model::Mode;
    use std::test::Fail;

    // The bytes of a call with small fields.
    fn call(kind: u8, index: u8, length: u8, value: u16) -> [u8; CALL_BYTES] {
        let [low, high] = value.to_le_bytes();
        [
            kind, 0, index, 0, length, 0, 0, 0, low, high, 0, 0, 0, 0, 0, 0,
        ]
    }

    // The worked example, whose lines are values, and what they print.
    #[test]
    fn turns_of_the_worked_example(rt: HostRuntime) -> Result<(), Fail> {
        let policy = [4, 0, 4, 0, 1, 0, 1, 0, 1, 0, 2, 0];
        let mut state = start::refused_state();
        let mut kernel = [0; 4];
        let mut shadow = [0; 4];
        let mut map = [0; 4];
        let mut exclusion = [0; 1];
        let opened = open(&policy, &mut state, &mut shadow, &mut map, &mut exclusion);
        assert!(rt; opened.is_continue());
        let mut machine = Machine {
            state,
            kernel: &mut kernel,
            shadow: &mut shadow,
            map: &mut map,
            exclusion: &exclusion,
            devices: windows(4),
        };
        let turns = [
            (call(0, 0, 0, 0x2003), "0 0 0 0 K 1\n"),
            (call(1, 0, 0, 0), "1 0 1 1 K 1\n"),
            (call(4, 0, 1, 0), "4 12 0 0 K 1\n"),
            (call(0, 3, 0, 0x3007), "0 0 0 0 K 1\n"),
            (call(1, 3, 0, 0), "1 0 1 0 K 1\n"),
            (call(6, 3, 0, 0), "6 0 3 0 U 3\n"),
            (call(7, 0, 1, 0x2000), "7 13 0 0 U 3\n"),
        ];
        for (bytes, want) in turns {
            let ControlFlow::Continue(line) = machine.turn(&bytes) else {
                assert!(rt; false, "no call follows {want}");
                return Ok(());
            };
            assert_eq!(rt; format!(in rt.alloc(); "{line}")?.as_str(), want);
        }
        let ends: [(&[u8], &str); 2] = [(&[0; 3], "X 14 0 0 U 3\n"), (&[8; 16], "X 15 0 0 U 3\n")];
        for (bytes, want) in ends {
            let ControlFlow::Break(Some(line)) = machine.turn(bytes) else {
                assert!(rt; false, "a call follows {want}");
                return Ok(());
            };
            assert!(rt; line.answer.is_err());
            assert_eq!(rt; format!(in rt.alloc(); "{line}")?.as_str(), want);
        }
        assert!(rt; matches!(machine.turn(&[]), ControlFlow::Break(None)));
        let start = CallLine {
            label: Label::Start,
            answer: Ok((1, 1)),
            mode: Mode::Kernel(1),
        };
        assert_eq!(rt;
            format!(in rt.alloc(); "{start}")?.as_str(),
            "S 0 1 1 K 1\n"
        );
        let entry = EntryLine(0x8000_0000_00ab_cdef);
        assert_eq!(rt;
            format!(in rt.alloc(); "{entry}")?.as_str(),
            "8000000000abcdef\n"
        );
        let share = ShareLine { percent: 25 };
        assert_eq!(rt; format!(in rt.alloc(); "{share}")?.as_str(), "share 25\n");
        Ok(())
    }
}
