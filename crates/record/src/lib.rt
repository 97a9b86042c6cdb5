// Document 02, K2, "Making the policy at the factory": a policy record written into a lent buffer.
// All questions come before the first byte is written. Those of the sizes, of the pages and of the frames are the policy crate's.

#![tactic(auto)]

ghost use Rattle.std.specs.Prelude.{◌≡◌, true, List, ◌+◌, ◌*◌, ◌≤◌, length};
ghost use Rattle.std.proofs.lemmas.List.Edits.{sets};
ghost use Rattle.model.specs.Policy as model;
ghost use Rattle.model.specs.Questions.{first_no, policy_questions};
ghost use Rattle.model.specs.Calls.{reply_of};
ghost use Rattle.model.specs.Refusals.{refused_by};
ghost use Rattle.record_model.specs.Record.{policy_by, number_bytes, numbers_bytes, record_of, arrays_exact, write_record_questions, written, write_record_of};

use model::{Answer, Refusal};
use std::marker::Model;

// The bytes of the four sizes, which come first.
const SIZES: usize = 8;

// A policy as the call names it: V, F, n and e, of which none is cut before its question, and the two arrays.
#[derive(Drop)]
struct Policy<'a> {
    pages: u64,
    frames: u64,
    count: u64,
    entry_count: u64,
    listed_pages: &'a [u16],
    listed_frames: &'a [u16],
}

impl<'a> Model for Policy<'a> {
    ghost Value = { model.Policy };

    ghost view = { λ p. policy_by p.pages p.frames p.count p.entry_count p.listed_pages.now p.listed_frames.now };
}

impl Policy<'_> {
    // Question 4: each array has exactly n numbers.
    #[tactic(auto, unfolding(record_model::specs::Record::arrays_exact, model::specs::Basics::both))]
    fn arrays_exact(&self) -> bool
        ensures { result ≡ arrays_exact self.now }
    {
        self.listed_pages.len() as u64 == self.count
            && self.listed_frames.len() as u64 == self.count
    }

    // Questions 2 to 6. Past question 2, V and F have 16 bits.
    fn question(&self) -> Result<(), Refusal>
        ensures { refused_by result ≡ first_no (policy_questions true true (arrays_exact self.now) self.now) }
    {
        if !policy::sizes_in_range(self.pages, self.frames) {
            return Err(Refusal::SizeOutOfRange);
        }
        if !policy::counts_in_range(self.pages, self.count, self.entry_count) {
            return Err(Refusal::CountOutOfRange);
        }
        if !self.arrays_exact() {
            return Err(Refusal::RecordLength);
        }
        if !policy::pages_rising(self.pages as u16, self.listed_pages.iter().copied()) {
            return Err(Refusal::ListedPage);
        }
        if !policy::frames_below(self.frames as u16, self.listed_frames.iter().copied()) {
            return Err(Refusal::ListedFrame);
        }
        Ok(())
    }

    // The bytes of the record. Question 3 has shown what is required.
    fn record_length(&self) -> u64
        requires { self.now.count ≤ 2048 }
        ensures { result ≡ 8 + 4 * self.now.count }
    {
        SIZES as u64 + 4 * self.count
    }

    // All questions: after 6 come 7, where the run for the call's numbers does not fit, and 16, by the buffer's length.
    #[tactic(auto, using(crate::proofs::WriteLaws::asking))]
    fn write_question(&self, numbers_fit: bool, room: usize) -> Result<(), Refusal>
        ensures { refused_by result ≡ first_no (write_record_questions numbers_fit self.now room) }
    {
        self.question()?;
        if !numbers_fit {
            return Err(Refusal::StateOrTable);
        }
        if (room as u64) < self.record_length() {
            return Err(Refusal::BufferTooShort);
        }
        Ok(())
    }

    // The record into a buffer that is long enough: question 16. Questions 2 to 6 have found no fault. Bytes past the record stay as they are.
    fn put(&self, buffer: &mut [u8])
        requires accepted { first_no (policy_questions true true (arrays_exact self.now) self.now) ≡ 0 }
        requires room { 8 + 4 * self.now.count ≤ length buffer.old }
        ensures { buffer.new ≡ sets buffer.old 0 (record_of self.now) }
    {
        // "Sizes first: V, F, n, e, 16 bits each."
        put_number(buffer, 0, self.pages as u16);
        put_number(buffer, 2, self.frames as u16);
        put_number(buffer, 4, self.count as u16);
        put_number(buffer, 6, self.entry_count as u16);
        put_numbers(buffer, SIZES, self.listed_pages);
        let frames_at = SIZES + 2 * self.listed_pages.len();
        put_numbers(buffer, frames_at, self.listed_frames);
    }
}

// A number into two bytes of the buffer, the lower one first. Question 16 has shown that they are there. By a place: a proof knows nothing of what is
// written through `chunks_exact_mut`.
#[tactic(auto, using(crate::proofs::WriteLaws::number_put))]
fn put_number(buffer: &mut [u8], at: usize, number: u16)
    requires { at + 2 ≤ length buffer.old }
    ensures { buffer.new ≡ sets buffer.old at (number_bytes number) }
{
    let [low, high] = number.to_le_bytes();
    buffer[at] = low;
    buffer[at + 1] = high;
}

// Numbers in a row.
fn put_numbers(buffer: &mut [u8], at: usize, numbers: &[u16])
    requires { at + 2 * length numbers.now ≤ length buffer.old }
    ensures { buffer.new ≡ sets buffer.old at (numbers_bytes numbers.now) }
{
    for (i, number) in numbers.iter().enumerate() {
        put_number(buffer, at + 2 * i, *number);
    }
}

// Writes a policy's record into the buffer. `numbers_fit`: the run for the call's numbers, where it is lent one, has its length. The parameters are those
// of the C interface.
#[tactic(auto, using(crate::proofs::WriteLaws::settling))]
pub fn write_record(
    pages: u64,
    frames: u64,
    count: u64,
    entry_count: u64,
    listed_pages: &[u16],
    listed_frames: &[u16],
    buffer: &mut [u8],
    numbers_fit: bool,
) -> Answer
    ensures { written (reply_of result) buffer.new ≡ write_record_of numbers_fit
        (policy_by pages frames count entry_count listed_pages.now listed_frames.now) buffer.old }
{
    let policy = Policy {
        pages,
        frames,
        count,
        entry_count,
        listed_pages,
        listed_frames,
    };
    policy.write_question(numbers_fit, buffer.len())?;
    policy.put(buffer);
    Ok((policy.record_length(), 0))
}
