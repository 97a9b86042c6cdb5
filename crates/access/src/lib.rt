// Document 01, "Calls and their two numbers": fetch and write.
// Each call goes down its questions in order, and does what an accepted call does where none refuses it.

#![tactic(auto)]

ghost use Rattle.std.specs.Prelude.{◌≡◌, not};
ghost use lib.ListN.{length};
ghost use Rattle.model.specs.Basics.{either};
ghost use Rattle.model.specs.Bits.{user_bit};
ghost use Rattle.model.specs.Calls;
ghost use Rattle.model.specs.Calls.{outcome_by, answer};
ghost use Rattle.model.specs.Guard.{Tables, with_shadow, with_exclusion, guard_of, vector_bytes};
ghost use Rattle.model.specs.Questions.{first_no, fetch_permitted, write_permitted};
ghost use Rattle.model.specs.Refusals.{refused_by};
ghost use Rattle.access.specs.EntryQuestions.{free_in, entry_questions};

use model::{Answer, PAGE_BYTES, Refusal, State};

// Bit 2, which is asked in user mode only.
#[tactic(auto, unfolding(model::specs::Basics::either))]
fn user_may(user: bool, entry: u64) -> bool
    ensures { result ≡ either (not user) (user_bit entry) }
{
    !user || entry::user_bit(entry)
}

// Question 12 of a fetch.
#[tactic(auto, using(laws::proofs::AskedLaws::asked), unfolding(model::specs::Questions::fetch_permitted))]
fn fetch_permitted(user: bool, entry: u64) -> bool
    ensures { result ≡ fetch_permitted user entry }
{
    !entry::no_execute(entry) && user_may(user, entry)
}

#[tactic(auto, using(laws::proofs::AskedLaws::answered, crate::proofs::FetchLaws::fetches))]
pub fn fetch(s: &mut State, shadow: &[u64], page: u64) -> Answer
    ensures { (t : Tables) → outcome_by result s.new (with_shadow shadow.now t)
        ≡ answer (guard_of s.old (with_shadow shadow.now t)) (Calls.fetch page) }
{
    if !lengths::shadow_in_order(*s, shadow.len()) {
        return Err(Refusal::StateOrTable);
    }
    if !limits::page_exists(page, s.pages) {
        return Err(Refusal::DoesNotExist);
    }
    let entry = shadow[page as usize];
    if !entry::present(entry) {
        return Err(Refusal::NotPresent);
    }
    if !fetch_permitted(state::in_user(s.mode), entry) {
        return Err(Refusal::NotPermitted);
    }
    let frame = entry::frame_of(entry);
    s.mode = state::on_page(s.mode, page);
    Ok((frame, frame))
}

// Question 12 of a write, of one page.
#[tactic(auto, using(laws::proofs::AskedLaws::asked), unfolding(model::specs::Questions::write_permitted))]
fn write_permitted(user: bool, entry: u64) -> bool
    ensures { result ≡ write_permitted user entry }
{
    entry::writable(entry) && user_may(user, entry)
}

// Question 13 of one frame. The vector has a bit for each frame below F, as question 7 has settled.
#[tactic(auto, using(laws::proofs::AskedLaws::asked), unfolding(model::specs::Guard::vector_bytes))]
fn frame_free(frames: u64, exclusion: &[u8], frame: u64) -> bool
    requires { length exclusion.now ≡ vector_bytes frames }
    ensures { result ≡ free_in frames exclusion.now frame }
{
    frame < frames && !bitmap::test_bit_within(exclusion, frame)
}

// Questions 11 to 13 of a write, of the entries of its first and its last page.
// A bit that both entries have is a bit of what they have in common. One frame is asked once.
#[tactic(auto, using(laws::proofs::AskedLaws::asked, crate::proofs::CommonLaws::in_common))]
fn ask_entries(
    user: bool,
    frames: u64,
    exclusion: &[u8],
    first: u64,
    last: u64,
) -> Result<(), Refusal>
    requires { length exclusion.now ≡ vector_bytes frames }
    ensures { refused_by result ≡ first_no (entry_questions user frames exclusion.now first last) }
{
    let common = first & last;
    if !entry::present(common) {
        return Err(Refusal::NotPresent);
    }
    if !write_permitted(user, common) {
        return Err(Refusal::NotPermitted);
    }
    let frame = entry::frame_of(first);
    if !frame_free(frames, exclusion, frame) {
        return Err(Refusal::Excluded);
    }
    let other = entry::frame_of(last);
    if other != frame && !frame_free(frames, exclusion, other) {
        return Err(Refusal::Excluded);
    }
    Ok(())
}

// At most 16 bytes touch no page but the first and the last, which may be one.
#[tactic(auto, using(laws::proofs::AskedLaws::answered, crate::proofs::WriteLaws::writes))]
pub fn write(s: State, shadow: &[u64], exclusion: &[u8], address: u64, length: u64) -> Answer
    ensures { (t : Tables) → outcome_by result s (with_shadow shadow.now (with_exclusion exclusion.now t))
        ≡ answer (guard_of s (with_shadow shadow.now (with_exclusion exclusion.now t))) (Calls.write address length) }
{
    if !lengths::write_in_order(s, shadow.len(), exclusion.len()) {
        return Err(Refusal::StateOrTable);
    }
    if !limits::write_length(length) {
        return Err(Refusal::LengthOutOfRange);
    }
    if !limits::write_exists(address, length, s.pages) {
        return Err(Refusal::DoesNotExist);
    }
    let first = shadow[(address / PAGE_BYTES) as usize];
    let last = shadow[limits::last_page(address, length) as usize];
    let user = state::in_user(s.mode);
    ask_entries(user, s.frames, exclusion, first, last)?;
    Ok((entry::frame_of(first), entry::frame_of(last)))
}
