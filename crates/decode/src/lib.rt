// The runs of words that cross the boundary: the state in one, and a call's two numbers in another. They are read and asked about here; `encode` writes them.

#![tactic(auto)]

ghost use Rattle.std.specs.Prelude.{◌≡◌, eqb};
ghost use Rattle.model.specs.Guard.{mode_of};
ghost use Rattle.boundary_model.specs.Words;
ghost use Rattle.boundary_model.specs.Words.{entry_pages_in, pending_in, state_in, runs_fit};
ghost use Rattle.decode.specs.Lent.{lent_state};

use model::{ENTRY_PAGES, Mode, Pending, Refusal, State};

// The layout of a state run. include/guard.h has the same constants, which tests/header compares.
pub const STATE_WORDS: usize = 25;

pub const STATE_PAGES: usize = 0;

pub const STATE_FRAMES: usize = 1;

pub const STATE_ENTRIES: usize = 2;

pub const STATE_ENTRY: usize = 3;

pub const STATE_MODE: usize = 19;

pub const STATE_RUNNING: usize = 20;

pub const STATE_DEVICES: usize = 21;

pub const STATE_PENDING: usize = 22;

pub const STATE_PENDING_PAGE: usize = 23;

pub const STATE_PENDING_FRAME: usize = 24;

pub const MODE_KERNEL: u64 = 0;

pub const MODE_USER: u64 = 1;

// The length of a numbers run.
pub const NUMBERS: usize = 2;

// The pending word where a pair is pending.
const PENDING: u64 = 1;

// Kernel or user, and the page that runs: two words of a run, so that a `From` of a pair would be no plainer.
#[tactic(auto, unfolding(model::specs::Guard::mode_of))]
fn mode_of(word: u64, page: u64) -> Mode
    ensures { result ≡ mode_of (eqb word 1) page }
{
    if word == MODE_USER {
        Mode::User(page)
    } else {
        Mode::Kernel(page)
    }
}

// The sixteen entry pages of a run.
#[tactic(auto, using(crate::proofs::WordLaws::pages_read))]
fn entry_pages(run: &[u64; STATE_WORDS]) -> [u64; ENTRY_PAGES]
    ensures { result ≡ entry_pages_in run.now }
{
    run[STATE_ENTRY..STATE_MODE].try_into().unwrap()
}

// What is pending. Where no pair is, its words say nothing.
#[tactic(auto, unfolding(boundary_model::specs::Words::pending_in))]
fn pending_in(run: &[u64; STATE_WORDS]) -> Option<Pending>
    ensures { result ≡ pending_in run.now }
{
    let pair = Pending {
        page: run[STATE_PENDING_PAGE],
        frame: run[STATE_PENDING_FRAME],
    };
    (run[STATE_PENDING] == PENDING).then_some(pair)
}

// The state that a run holds: every word as it comes, so that none is cut.
#[tactic(auto, unfolding(boundary_model::specs::Words::state_in))]
pub fn state_in(run: &[u64; STATE_WORDS]) -> State
    ensures { result ≡ state_in run.now }
{
    State {
        pages: run[STATE_PAGES],
        frames: run[STATE_FRAMES],
        entry_count: run[STATE_ENTRIES],
        entry_pages: entry_pages(run),
        mode: mode_of(run[STATE_MODE], run[STATE_RUNNING]),
        devices: run[STATE_DEVICES],
        pending: pending_in(run),
    }
}

// The boundary's part of question 7: the lengths of both runs, which the start asks for. A call's numbers run has a word for each of its numbers.
#[tactic(auto, unfolding(boundary_model::specs::Words::runs_fit, model::specs::Basics::both))]
pub fn runs_fit(run: &[u64], numbers: &[u64], count: usize) -> bool
    ensures { result ≡ runs_fit count run.now numbers.now }
{
    run.len() == STATE_WORDS && numbers.len() == count
}

// What every other call asks for: a mode word and a pending word of 0 or 1 too.
#[tactic(auto, using(crate::proofs::WordLaws::run_fits), unfolding(boundary_model::specs::Words::lendable, model::specs::Basics::both))]
fn lendable(run: &[u64], numbers: &[u64], count: usize) -> bool
    ensures { result ≡ Words.lendable count run.now numbers.now }
{
    runs_fit(run, numbers, count) && run[STATE_MODE] <= MODE_USER && run[STATE_PENDING] <= PENDING
}

// The state that a call is lent, where both runs can be lent and it is in order: else question 7 refuses the call. Compiled into each call, it decodes the
// words that the call reads, and no other.
#[inline(always)]
#[tactic(auto, using(crate::proofs::WordLaws::run_lent), unfolding(model::specs::Basics::both))]
pub fn state_of(run: &[u64], numbers: &[u64], count: usize) -> Result<State, Refusal>
    ensures { result ≡ lent_state count run.now numbers.now }
{
    if !lendable(run, numbers, count) {
        return Err(Refusal::StateOrTable);
    }
    let s = state_in(run.as_array().unwrap());
    if !ranges::state_in_order(s) {
        return Err(Refusal::StateOrTable);
    }
    Ok(s)
}
