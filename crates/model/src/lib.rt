// The declared types of the guard, and the functions that carry the rows of its definitions.
// The definitions themselves stand in specs/, one file for each section of document 01 and for a request that adds to none; those of demand 3, of the
// drill and of the record that is written (K2) are crates of their own, and so are the laws about the definitions.

#![tactic(auto)]

ghost use Rattle.std.specs.Prelude.{◌++◌, ◌≡◌};
ghost use Rattle.model.specs.ApprovalCases.{ask_cases, commit_cases, drop_cases, pending_cases};
ghost use Rattle.model.specs.Cases.{cases, Hold};
ghost use Rattle.model.specs.DeviceCases.{device_cases};
ghost use Rattle.model.specs.Further.{start_cases, sync_cases, order_cases, access_cases, switch_cases, answer_cases, apart_cases, vector_cases};
ghost use Rattle.model.specs.Refusals.{number_of};
ghost use Rattle.model.specs.Orders.{start_order, call_order};
ghost use Rattle.model.specs.TreeCases.{walk_cases, walk_refusals, tree_cases};

// Document 01, "The guard and its edges": the size of a page in bytes, and the most that V and F may be.
pub const PAGE_BYTES: u64 = 4096;

pub const MOST_PAGES: u64 = 2048;

pub const MOST_FRAMES: u64 = 4096;

// Document 01, "What the guard keeps": the map's number for a page with no frame approved, and how many entry pages a state has room for.
pub const NONE: u16 = 65535;

pub const ENTRY_PAGES: usize = 16;

// The bytes of the longest exclusion vector.
pub const VECTOR_BYTES: usize = 512;

// Document 01, "Calls and their two numbers": the most bytes of a write and of a device write.
pub const MOST_WRITTEN: u64 = 16;

pub const MOST_TRANSFERRED: u64 = 1048576;

// Document 02, K5: the most devices that a state may have.
pub const MOST_DEVICES: usize = 64;

// Document 01, "What the guard keeps": the mode, kernel or user, together with the page now running.
#[derive(Clone, Copy)]
pub enum Mode {
    Kernel(u64),
    User(u64),
}

// Document 02, K6: the pending pair, the page and the frame of an ask, until it is committed or dropped.
#[derive(Clone, Copy)]
pub struct Pending {
    pub page: u64,
    pub frame: u64,
}

// Document 01, "What the guard keeps": the state. Its numbers have the 64 bits with which they come across the boundary, so that none is cut before question 7.
#[derive(Clone, Copy)]
pub struct State {
    // V, the number of virtual pages.
    pub pages: u64,
    // F, the number of physical frames.
    pub frames: u64,
    // e, the number of entry pages.
    pub entry_count: u64,
    // The sixteen entry pages; unused ones are 0. An array with its number beside it: question 7 asks for e, and both cross the boundary as they stand.
    pub entry_pages: [u64; ENTRY_PAGES],
    pub mode: Mode,
    // K5: the number of devices, which the start is given.
    pub devices: u64,
    // K6: "the state holds at most one pending pair".
    pub pending: Option<Pending>,
}

// Document 02, K5: "a list of devices, one record each, with first and last permitted frame". C lays it out as it stands.
#[repr(C)]
#[derive(Clone, Copy)]
pub struct Device {
    pub first: u16,
    pub last: u16,
}

// Document 01, "Entry bits": the fields of a kernel entry that is present. An entry that is taken apart is these, or absent.
#[derive(Clone, Copy)]
pub struct Fields {
    pub writable: bool,
    pub user: bool,
    // K3: how the processor's caches treat the page, bits 3 and 4.
    pub write_through: bool,
    pub cache_disable: bool,
    // The kernel entry's own no-execute, bit 63.
    pub no_execute: bool,
    pub frame: u64,
}

// Document 01, "Questions in order", and document 02: the question that refuses a call, with its number. docs/REFUSALS.md has them in words.
#[derive(Clone, Copy, Debug, PartialEq, Eq)]
pub enum Refusal {
    RecordTooShort = 1,
    SizeOutOfRange = 2,
    CountOutOfRange = 3,
    RecordLength = 4,
    ListedPage = 5,
    ListedFrame = 6,
    StateOrTable = 7,
    LengthOutOfRange = 8,
    DoesNotExist = 9,
    WrongMode = 10,
    NotPresent = 11,
    NotPermitted = 12,
    Excluded = 13,
    CallCutShort = 14,
    UnknownKind = 15,
    BufferTooShort = 16,
    Tree = 17,
    NoDevice = 18,
    OutsideWindow = 19,
    ApprovalConflict = 20,
    MappedWritable = 21,
    NothingPending = 22,
}

// What a call answers: its two numbers, or the question that refused it.
pub type Answer = Result<(u64, u64), Refusal>;

impl From<Refusal> for u64 {
    ghost from_gives = { λ refusal number. number ≡ number_of refusal };

    fn from(refusal: Refusal) -> u64 {
        refusal as u64
    }
}

// Document 01, C1 to C12: every row of the table holds of the definitions.
pub fn twelve_cases()
    ensures { Hold cases }
{}

// Cases beside the twelve: the calls and refusals that those do not make.
pub fn further_cases()
    ensures { Hold (start_cases ++ sync_cases ++ order_cases ++ access_cases ++ switch_cases ++ answer_cases) × Hold apart_cases × Hold vector_cases }
{}

// The order of each call's questions, by inputs that fail several of them.
pub fn order_of_questions()
    ensures { Hold (start_order ++ call_order) }
{}

// Document 02, K4: what walks give, and what synchronising from a tree gives.
pub fn tree_cases()
    ensures { Hold walk_cases × Hold walk_refusals × Hold tree_cases }
{}

// Document 02, K5: the number of devices, and what a device write answers by its list.
pub fn device_cases()
    ensures { Hold device_cases }
{}

// Document 02, K6: what ask, commit and drop give, and what the other calls give while a pair is pending.
pub fn approval_cases()
    ensures { Hold (ask_cases ++ commit_cases ++ drop_cases ++ pending_cases) }
{}
