// What is written into the runs of words that cross the boundary: the state in one, and a call's two numbers in another.

#![tactic(auto)]

ghost use Rattle.std.specs.Prelude.{ℕ, List, [], ◌∷◌, ◌++◌, ◌≡◌, length, take};
ghost use Rattle.model.specs.declared.State.{State};
ghost use Rattle.model.specs.Calls.{reply_of, settle};
ghost use Rattle.boundary_model.specs.Words.{state_words, entry_words, mode_at, answer_numbers, state_in, mode_word, last_words};
ghost use Rattle.boundary_model.specs.Words.{words_of, with_words, page_places, mode_places, pending_places, overwritten, with_numbers};

use decode::{
    MODE_KERNEL, MODE_USER, NUMBERS, STATE_DEVICES, STATE_ENTRIES, STATE_ENTRY, STATE_FRAMES,
    STATE_MODE, STATE_PAGES, STATE_PENDING, STATE_PENDING_FRAME, STATE_PENDING_PAGE, STATE_RUNNING,
    STATE_WORDS,
};
use model::{Answer, ENTRY_PAGES, Mode, State};

// The pending word, where no pair is pending and where one is.
const NOT_PENDING: u64 = 0;

const PENDING: u64 = 1;

// The first word of a mode. The page that runs is the second, so that a `From` would give half of a mode.
#[tactic(auto, unfolding(boundary_model::specs::Words::mode_word))]
fn mode_word(mode: Mode) -> u64
    ensures { result ≡ mode_word mode }
{
    if state::in_user(mode) {
        MODE_USER
    } else {
        MODE_KERNEL
    }
}

// The part of a state that a call can change: an accepted one writes its words into the state run, and no other.
pub trait Part {
    ghost written: { List ℕ → State → List ℕ };

    fn put(run: &mut [u64; STATE_WORDS], s: State)
        ensures { run.new ≡ written run.old s };
}

// A fetch changes the page that now runs.
pub struct RunningPage;

impl Part for RunningPage {
    ghost written = { λ run s. with_words run s page_places };

    fn put(run: &mut [u64; STATE_WORDS], s: State) {
        run[STATE_RUNNING] = state::running(s.mode);
    }
}

// Enter and leave change both words of the mode.
pub struct ModeAndPage;

impl Part for ModeAndPage {
    ghost written = { λ run s. with_words run s mode_places };

    fn put(run: &mut [u64; STATE_WORDS], s: State) {
        run[STATE_MODE] = mode_word(s.mode);
        RunningPage::put(run, s);
    }
}

// Ask, commit and drop change the three words of what is pending.
pub struct PendingPair;

impl Part for PendingPair {
    ghost written = { λ run s. with_words run s pending_places };

    fn put(run: &mut [u64; STATE_WORDS], s: State) {
        let (word, page, frame) = match s.pending {
            None => (NOT_PENDING, 0, 0),
            Some(asked) => (PENDING, asked.page, asked.frame),
        };
        run[STATE_PENDING] = word;
        run[STATE_PENDING_PAGE] = page;
        run[STATE_PENDING_FRAME] = frame;
    }
}

// A start writes every word.
pub struct WholeState;

impl Part for WholeState {
    ghost written = { λ run s. words_of s };

    fn put(run: &mut [u64; STATE_WORDS], s: State) {
        put_state(run, s);
    }
}

// Stores the entry pages as one array: `copy_from_slice` would ask whether the two overlap, and go through the stack.
fn put_entry_pages(words: &mut [u64], pages: [u64; ENTRY_PAGES])
    requires { length words.old ≡ entry_words }
    ensures { words.new ≡ pages }
{
    *words.as_mut_array().unwrap() = pages;
}

// Writes the words before the mode: V, F, e and the entry pages.
fn put_front(run: &mut [u64; STATE_WORDS], s: State)
    ensures { take mode_at run.new ≡ s.pages ∷ s.frames ∷ s.entry_count ∷ s.entry_pages }
{
    run[STATE_PAGES] = s.pages;
    run[STATE_FRAMES] = s.frames;
    run[STATE_ENTRIES] = s.entry_count;
    put_entry_pages(&mut run[STATE_ENTRY..STATE_MODE], s.entry_pages);
}

// Writes the words behind the entry pages, and no other.
fn put_last(run: &mut [u64; STATE_WORDS], s: State)
    ensures { run.new ≡ take mode_at run.old ++ last_words s }
{
    ModeAndPage::put(run, s);
    run[STATE_DEVICES] = s.devices;
    PendingPair::put(run, s);
}

// Writes all words of a state into a run, front to back. What was encoded decodes to the same state.
fn put_state(run: &mut [u64; STATE_WORDS], s: State)
    ensures encoded { run.new ≡ words_of s }
    ensures decoded { state_in run.new ≡ s }
{
    put_front(run, s);
    put_last(run, s);
}

// Two numbers to a numbers run. A run of another length is not written.
fn put_numbers(numbers: &mut [u64], first: u64, second: u64)
    ensures { numbers.new ≡ overwritten numbers.old (first ∷ second ∷ []) }
{
    if let Some(both) = numbers.as_mut_array::<NUMBERS>() {
        *both = [first, second];
    }
}

// An answer: the number to return, and the call's two numbers, which are 0 where it was refused.
#[tactic(auto, unfolding(model::specs::Calls::reply_of, boundary_model::specs::Words::with_numbers))]
pub fn reply(numbers: &mut [u64], answer: Answer) -> u64
    ensures number { result ≡ (reply_of answer).number }
    ensures both { numbers.new ≡ with_numbers answer_numbers numbers.old (reply_of answer) }
{
    match answer {
        Ok((first, second)) => {
            put_numbers(numbers, first, second);
            0
        }
        Err(refusal) => {
            put_numbers(numbers, 0, 0);
            refusal.into()
        }
    }
}

// What a call that may change the state gave: its answer to the numbers run, and what an accepted one changed to the state run.
// The state run has its length, which question 7 has asked for.
pub fn put<P: Part>(run: &mut [u64], numbers: &mut [u64], answer: Answer, s: State) -> u64
    requires { length run.old ≡ state_words }
    ensures number { result ≡ (reply_of answer).number }
    ensures words { run.new ≡ settle (reply_of answer).number (P.written run.old s) (λ _. run.old) }
    ensures both { numbers.new ≡ with_numbers answer_numbers numbers.old (reply_of answer) }
{
    if answer.is_ok() {
        P::put(run.as_mut_array().unwrap(), s);
    }
    reply(numbers, answer)
}
