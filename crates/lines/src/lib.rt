// The drill's lines: what a line begins with, and the bytes of a call's line and of the closing lines. A line has its end, as the definitions have it.
// The drill writes bytes, which are made by functions that cannot fail. The same lines are values too, for a caller that asks for an answer or formats
// a text: their `Display` says what is written where it answers `Ok`, and lets an impl give up.

#![tactic(auto)]

ghost use Rattle.std.specs.Prelude.{◌+◌, ◌<◌, ◌≤◌, ◌%◌, ◌≡◌, cond, [], ◌∷◌, ◌++◌, MatchResult, Some};
ghost use Rattle.model.specs.Guard.{in_user, running};
ghost use Rattle.model.specs.declared.Refusal.TheVariants.{UnknownKind};
ghost use Rattle.model.specs.Calls.{reply_of};
ghost use Rattle.drill_model.specs.Drill.{digits, decimal, line, hex_digit, hex_digits, share_line};
ghost use Rattle.lines.specs.Text.{text, kind_number, label_byte, call_text, entry_text, share_text};

use model::{Answer, Mode, Refusal};
use std::fmt;

// The kinds of call, by their numbers. Question 15 refuses any other.
#[derive(Clone, Copy)]
pub enum Kind {
    Edit,
    SyncPage,
    SyncAll,
    Fetch,
    Write,
    Enter,
    Leave,
    DeviceWrite,
}

impl TryFrom<u8> for Kind {
    type Error = Refusal;

    ghost try_from_gives = { λ n r. MatchResult r (λ kind. kind_number kind ≡ n) (λ refusal. (refusal ≡ UnknownKind) × (8 ≤ n)) };

    fn try_from(number: u8) -> Result<Kind, Refusal> {
        match number {
            0 => Ok(Kind::Edit),
            1 => Ok(Kind::SyncPage),
            2 => Ok(Kind::SyncAll),
            3 => Ok(Kind::Fetch),
            4 => Ok(Kind::Write),
            5 => Ok(Kind::Enter),
            6 => Ok(Kind::Leave),
            7 => Ok(Kind::DeviceWrite),
            _ => Err(Refusal::UnknownKind),
        }
    }
}

// The digit of a kind.
fn number_of(kind: Kind) -> u8
    ensures { result ≡ kind_number kind }
{
    kind as u8
}

// What a line begins with: S of the start, a call's kind, or X where the calls end.
#[derive(Clone, Copy)]
pub enum Label {
    Start,
    Call(Kind),
    End,
}

impl From<Label> for u8 {
    ghost from_gives = { λ label byte. byte ≡ label_byte label };

    fn from(label: Label) -> u8 {
        match label {
            Label::Start => b'S',
            Label::Call(kind) => b'0' + number_of(kind),
            Label::End => b'X',
        }
    }
}

// The room of a line, which holds the longest.
const ROOM: usize = 96;

// A line that is being made: its bytes stand at the front of its room.
#[derive(Clone, Copy)]
pub struct Line {
    pub bytes: [u8; ROOM],
    pub len: usize,
}

impl Line {
    // A line of no bytes yet.
    pub fn new() -> Line
        ensures bytes { text result ≡ [] }
        ensures len { result.len ≡ 0 }
    {
        Line {
            bytes: [0; ROOM],
            len: 0,
        }
    }

    pub fn as_bytes(&self) -> &[u8]
        ensures { result.now ≡ text self.now }
    {
        &self.bytes[..self.len.min(ROOM)]
    }

    // One byte more, within the room.
    fn push(&mut self, byte: u8)
        requires { self.old.len < 96 }
        ensures bytes { text self.new ≡ text self.old ++ (byte ∷ []) }
        ensures len { self.new.len ≡ self.old.len + 1 }
    {
        self.bytes[self.len] = byte;
        self.len += 1;
    }

    // The decimal digits of n, at most `room` of them.
    fn push_digits(&mut self, room: usize, n: u64)
        requires { self.old.len + room ≤ 96 }
        ensures bytes { text self.new ≡ text self.old ++ digits room n }
        ensures len { self.new.len ≤ self.old.len + room }
    {
        if room == 0 {
            return;
        }
        if n < 10 {
            self.push(digit(n));
            return;
        }
        self.push_digits(room - 1, n / 10);
        self.push(digit(n));
    }

    // A space, and a number.
    fn push_number(&mut self, n: u64)
        requires { self.old.len ≤ 75 }
        ensures bytes { text self.new ≡ text self.old ++ (32 ∷ decimal n) }
        ensures len { self.new.len ≤ self.old.len + 21 }
    {
        self.push(b' ');
        self.push_digits(20, n);
    }

    // The letter of the mode, the page running, and the line's end.
    fn push_mode(&mut self, mode: Mode)
        requires { self.old.len ≤ 64 }
        ensures { text self.new ≡ text self.old ++ (32 ∷ cond (in_user mode) 85 75 ∷ 32 ∷ decimal (running mode)) ++ (10 ∷ []) }
    {
        let (letter, page) = letter_and_page(mode);
        self.push(b' ');
        self.push(letter);
        self.push_number(page);
        self.push(b'\n');
    }
}

fn digit(n: u64) -> u8
    ensures { result ≡ 48 + n % 10 }
{
    b'0' + (n % 10) as u8
}

#[tactic(auto, unfolding(model::specs::Guard::in_user, model::specs::Guard::running))]
fn letter_and_page(mode: Mode) -> (u8, u64)
    ensures { (result.0 ≡ cond (in_user mode) 85 75) × (result.1 ≡ running mode) }
{
    match mode {
        Mode::Kernel(page) => (b'K', page),
        Mode::User(page) => (b'U', page),
    }
}

// An answer's number, or 0, and its two values.
#[tactic(auto, unfolding(model::specs::Calls::reply_of))]
fn columns(answer: Answer) -> (u64, u64, u64)
    ensures { (result.0 ≡ (reply_of answer).number) × (result.1 ≡ (reply_of answer).first) × (result.2 ≡ (reply_of answer).second) }
{
    match answer {
        Ok((first, second)) => (0, first, second),
        Err(refusal) => (refusal.into(), 0, 0),
    }
}

// A call's line, of what it begins with, its answer, and the mode after it.
pub fn call_line(kind: u8, answer: Answer, mode: Mode) -> Line
    ensures { text result ≡ line kind (reply_of answer) mode }
{
    let (number, first, second) = columns(answer);
    let mut l = Line::new();
    l.push(kind);
    l.push_number(number);
    l.push_number(first);
    l.push_number(second);
    l.push_mode(mode);
    l
}

// The lowest four bits, as a lower-case hexadecimal digit.
fn hex(n: u64) -> u8
    ensures { result ≡ hex_digit (n % 16) }
{
    let d = (n % 16) as u8;
    if d < 10 { 48 + d } else { 87 + d }
}

// A shadow entry's line.
pub fn entry_line(entry: u64) -> [u8; 17]
    ensures { result ≡ hex_digits 16 entry ++ (10 ∷ []) }
{
    [
        hex(entry / 0x1000_0000_0000_0000),
        hex(entry / 0x100_0000_0000_0000),
        hex(entry / 0x10_0000_0000_0000),
        hex(entry / 0x1_0000_0000_0000),
        hex(entry / 0x1000_0000_0000),
        hex(entry / 0x100_0000_0000),
        hex(entry / 0x10_0000_0000),
        hex(entry / 0x1_0000_0000),
        hex(entry / 0x1000_0000),
        hex(entry / 0x100_0000),
        hex(entry / 0x10_0000),
        hex(entry / 0x1_0000),
        hex(entry / 0x1000),
        hex(entry / 0x100),
        hex(entry / 0x10),
        hex(entry),
        b'\n',
    ]
}

// The word share and a space.
fn share_word() -> Line
    ensures bytes { text result ≡ 115 ∷ 104 ∷ 97 ∷ 114 ∷ 101 ∷ 32 ∷ [] }
    ensures len { result.len ≡ 6 }
{
    let mut bytes = [0; ROOM];
    bytes[0] = b's';
    bytes[1] = b'h';
    bytes[2] = b'a';
    bytes[3] = b'r';
    bytes[4] = b'e';
    bytes[5] = b' ';
    Line { bytes, len: 6 }
}

// The line of the share, in percent.
pub fn share_line(frames: u16, exclusion: &[u8]) -> Line
    ensures { text result ≡ share_line frames exclusion.now }
{
    let mut l = share_word();
    l.push_digits(20, share::share_of(frames, exclusion));
    l.push(b'\n');
    l
}

// The lines as values.

impl fmt::Display for Label {
    ghost output = { λ label. Some (label_byte label ∷ []) };

    fn fmt<W: fmt::Write>(&self, f: &mut fmt::Formatter<W>) -> fmt::Result {
        match *self {
            Label::Start => f.write_str("S"),
            Label::Call(kind) => write!(f, "{}", number_of(kind)),
            Label::End => f.write_str("X"),
        }
    }
}

// The line of a call, of the start, or of the calls' end.
#[derive(Clone, Copy)]
pub struct CallLine {
    pub label: Label,
    pub answer: Answer,
    pub mode: Mode,
}

impl fmt::Display for CallLine {
    ghost output = { λ l. Some (call_text l) };

    fn fmt<W: fmt::Write>(&self, f: &mut fmt::Formatter<W>) -> fmt::Result {
        let label = self.label;
        let (number, first, second) = columns(self.answer);
        match self.mode {
            Mode::Kernel(page) => writeln!(f, "{label} {number} {first} {second} K {page}"),
            Mode::User(page) => writeln!(f, "{label} {number} {first} {second} U {page}"),
        }
    }
}

// A shadow entry's line.
#[derive(Clone, Copy)]
pub struct EntryLine(pub u64);

impl fmt::Display for EntryLine {
    ghost output = { λ l. Some (entry_text l) };

    fn fmt<W: fmt::Write>(&self, f: &mut fmt::Formatter<W>) -> fmt::Result {
        let entry = self.0;
        writeln!(f, "{entry:016x}")
    }
}

// The line of the share, in percent.
#[derive(Clone, Copy)]
pub struct ShareLine {
    pub percent: u64,
}

impl fmt::Display for ShareLine {
    ghost output = { λ l. Some (share_text l) };

    fn fmt<W: fmt::Write>(&self, f: &mut fmt::Formatter<W>) -> fmt::Result {
        let percent = self.percent;
        writeln!(f, "share {percent}")
    }
}
