// Document 01, "The policy record", and questions 1 to 6 of a record. The tests of the sizes, of one page and of one frame also serve arrays (K2).
// Every number of the record is taken by a reader that moves on, with no test of the length: the questions before it have settled it. One reader
// takes the four sizes; the listed pages and frames are iterators over a reader.

#![tactic(auto)]

ghost use Rattle.std.specs.Prelude.{◌≡◌, ℕ, List, true, ◌+◌, ◌*◌, ◌<◌, ◌≤◌, min, leb, ltb, length, IfOk};
ghost use Rattle.std.specs.Iterator.{AlwaysYields, IsFinite, YieldsFirst, item_count};
ghost use Rattle.model.specs.Basics.{both, within};
ghost use Rattle.model.specs.Sizes.{pages_in_range, frames_in_range};
ghost use Rattle.model.specs.Policy.{given_of, number_at, numbers_at, policy_of};
ghost use Rattle.model.specs.Refusals.{refused_by};
ghost use Rattle.model.specs.Questions.{first_no, rising, all_below, policy_questions, record_questions};

use model::{ENTRY_PAGES, Refusal};
use std::marker::Model;

// The bytes of the four sizes, which come first.
const SIZES: usize = 8;

// "Reading a record goes through a reader that carries the lent bytes and how far it has come."
#[derive(Clone, Copy)]
struct Reader<'a> {
    bytes: &'a [u8],
    at: usize,
}

impl Reader<'_> {
    // The number where the reader stands, lower byte first. Both bytes are there: questions 1 and 4 have settled the length, so nothing is tested twice.
    #[tactic(auto, unfolding(model::specs::Policy::number_at))]
    fn take(&mut self) -> u16
        requires { self.old.at + 1 < length self.old.bytes.now }
        ensures number { result ≡ number_at self.old.bytes.now self.old.at }
        ensures bytes { self.new.bytes ≡ self.old.bytes }
        ensures at { self.new.at ≡ self.old.at + 2 }
    {
        let number = u16::from_le_bytes([self.bytes[self.at], self.bytes[self.at + 1]]);
        self.at += 2;
        number
    }
}

// A row of numbers: their reader, and how many it has left to take.
#[derive(Drop)]
pub struct Numbers<'a> {
    reader: Reader<'a>,
    left: u16,
}

// Clauses see the numbers that are left.
impl<'a> Model for Numbers<'a> {
    ghost Value = { List ℕ };

    ghost view = { λ n. numbers_at n.reader.bytes.now n.reader.at n.left };

    ghost invariant = { λ n. n.reader.at + 2 * n.left ≤ length n.reader.bytes.now };
}

impl Iterator for Numbers<'_> {
    type Item = u16;

    ghost next_gives = { YieldsFirst (λ n. n) };

    ghost remaining = { item_count (λ n. n) };

    fn next(&mut self) -> Option<u16> {
        if self.left == 0 {
            return None;
        }
        self.left -= 1;
        Some(self.reader.take())
    }
}

impl<'a> Numbers<'a> {
    // The numbers from a place on, count of them.
    fn new(bytes: &'a [u8], at: usize, count: u16) -> Self
        requires { at + 2 * count ≤ length bytes.now }
        ensures { result ≡ numbers_at bytes.now at count }
    {
        Numbers {
            reader: Reader { bytes, at },
            left: count,
        }
    }
}

// V, F, n and e of a record, and how far their reader has come: the first listed page is there.
#[derive(Clone, Copy)]
pub struct Sizes {
    pub pages: u16,
    pub frames: u16,
    pub count: u16,
    pub entry_count: u16,
    pub at: usize,
}

// One reader takes all four. Question 1 has shown that they are there.
pub fn read_sizes(bytes: &[u8]) -> Sizes
    requires { 8 ≤ length bytes.now }
    ensures { (result.pages ≡ number_at bytes.now 0) × (result.frames ≡ number_at bytes.now 2)
        × (result.count ≡ number_at bytes.now 4) × (result.entry_count ≡ number_at bytes.now 6) × (result.at ≡ 8) }
{
    let mut reader = Reader { bytes, at: 0 };
    Sizes {
        pages: reader.take(),
        frames: reader.take(),
        count: reader.take(),
        entry_count: reader.take(),
        at: reader.at,
    }
}

// The bytes of a record that has passed questions 1 to 6, with the sizes that stand in them.
#[derive(Clone, Copy)]
pub struct Record<'a> {
    pub bytes: &'a [u8],
    pub sizes: Sizes,
    pub ghost read: { (sizes.pages ≡ number_at bytes.now 0) × (sizes.frames ≡ number_at bytes.now 2)
        × (sizes.count ≡ number_at bytes.now 4) × (sizes.entry_count ≡ number_at bytes.now 6) },
    pub ghost long: { length bytes.now ≡ 8 + 4 * sizes.count },
    pub ghost passed: { first_no (policy_questions true true true (policy_of bytes.now)) ≡ 0 },
}

impl<'a> Record<'a> {
    #[tactic(auto, unfolding(model::specs::Policy::policy_of))]
    pub fn listed_pages(self) -> Numbers<'a>
        ensures { result ≡ (policy_of self.entry.bytes.now).listed_pages }
    {
        Numbers::new(self.bytes, SIZES, self.sizes.count)
    }

    #[tactic(auto, unfolding(model::specs::Policy::policy_of))]
    pub fn listed_frames(self) -> Numbers<'a>
        ensures { result ≡ (policy_of self.entry.bytes.now).listed_frames }
    {
        Numbers::new(
            self.bytes,
            SIZES + 2 * self.sizes.count as usize,
            self.sizes.count,
        )
    }

    // The first e of the listed pages.
    #[tactic(auto, using(crate::proofs::RecordLaws::entries_there))]
    pub fn entry_pages(self) -> Numbers<'a>
        ensures { result ≡ numbers_at self.entry.bytes.now 8 self.entry.sizes.entry_count }
    {
        Numbers::new(self.bytes, SIZES, self.sizes.entry_count)
    }
}

// One number of bytes that may be short, as the drill's. A byte past the end counts as 0.
#[tactic(auto, using(crate::proofs::RecordLaws::number_none, crate::proofs::RecordLaws::number_low))]
pub fn padded_number(bytes: &[u8], at: usize) -> u16
    ensures { result ≡ number_at bytes.now at }
{
    if bytes.len() <= at {
        return 0;
    }
    if bytes.len() <= at + 1 {
        return bytes[at] as u16;
    }
    let mut reader = Reader { bytes, at };
    reader.take()
}

// Questions 2 and 3, of sizes wherever they come from: 64-bit numbers, so that none is cut.

// Question 2.
#[tactic(auto, unfolding(model::specs::Basics::both))]
pub fn sizes_in_range(pages: u64, frames: u64) -> bool
    ensures { result ≡ both (pages_in_range pages) (frames_in_range frames) }
{
    ranges::pages_in_range(pages) && ranges::frames_in_range(frames)
}

// Question 3.
#[tactic(auto, unfolding(model::specs::Basics::both))]
pub fn counts_in_range(pages: u64, count: u64, entry_count: u64) -> bool
    ensures { result ≡ both (within 1 pages count) (within 1 (min count 16) entry_count) }
{
    ranges::in_range(1, pages, count)
        && ranges::in_range(1, count.min(ENTRY_PAGES as u64), entry_count)
}

// Question 5 of one page: it is at least `least`, one more than the page before, and below V.
#[tactic(auto, unfolding(model::specs::Basics::both))]
pub fn page_rises(pages: u16, least: u16, page: u16) -> bool
    ensures { result ≡ both (leb least page) (ltb page pages) }
{
    least <= page && page < pages
}

// Question 6 of one frame.
pub fn frame_below(frames: u16, frame: u16) -> bool
    ensures { result ≡ ltb frame frames }
{
    frame < frames
}

// Question 5, of the listed pages wherever they come from.
pub fn pages_rising<I: Iterator<Item = u16> + Drop>(pages: u16, listed: I) -> bool
    requires can { I.can_next listed }
    requires ends { IsFinite (I.remaining listed) }
    ensures { (numbers : List ℕ) → AlwaysYields I.next_gives (λ n. n) listed numbers → result ≡ rising pages 0 numbers }
{
    let mut least: u16 = 0;
    for page in listed {
        if !page_rises(pages, least, page) {
            return false;
        }
        least = page + 1;
    }
    true
}

// Question 6, of the listed frames wherever they come from: every frame is below F where the highest is. F is above 0, as question 2 has shown.
// With no way out of its loop the compiler takes eight numbers at once.
pub fn frames_below<I: Iterator<Item = u16> + Drop>(frames: u16, listed: I) -> bool
    requires some { 1 ≤ frames }
    requires can { I.can_next listed }
    requires ends { IsFinite (I.remaining listed) }
    ensures { (numbers : List ℕ) → AlwaysYields I.next_gives (λ n. n) listed numbers → result ≡ all_below frames numbers }
{
    frame_below(frames, listed.fold(0, |highest, frame| highest.max(frame)))
}

// The record of these bytes, or the first no among questions 1 to 6, where the start is given so many devices (K5).
pub fn accepted(bytes: &[u8], devices: u64) -> Result<Record<'_>, Refusal>
    ensures question { refused_by result ≡ first_no (record_questions (given_of devices) bytes.now (policy_of bytes.now)) }
    ensures record { IfOk result (λ r. r.bytes.now ≡ bytes.now) }
{
    if bytes.len() < SIZES {
        return Err(Refusal::RecordTooShort);
    }
    let sizes = read_sizes(bytes);
    let pages = sizes.pages;
    let count = sizes.count;
    if !sizes_in_range(pages as u64, sizes.frames as u64) {
        return Err(Refusal::SizeOutOfRange);
    }
    let counts = counts_in_range(pages as u64, count as u64, sizes.entry_count as u64);
    if !ranges::both(counts, ranges::devices_in_range(devices)) {
        return Err(Refusal::CountOutOfRange);
    }
    if bytes.len() != SIZES + 4 * count as usize {
        return Err(Refusal::RecordLength);
    }
    let listed_pages = Numbers::new(bytes, SIZES, count);
    if !pages_rising(pages, listed_pages) {
        return Err(Refusal::ListedPage);
    }
    let listed_frames = Numbers::new(bytes, SIZES + 2 * count as usize, count);
    if !frames_below(sizes.frames, listed_frames) {
        return Err(Refusal::ListedFrame);
    }
    Ok(Record { bytes, sizes })
}

// The same, where the record itself is not wanted.
pub fn record_question(bytes: &[u8], devices: u64) -> Result<(), Refusal>
    ensures { refused_by result ≡ first_no (record_questions (given_of devices) bytes.now (policy_of bytes.now)) }
{
    accepted(bytes, devices)?;
    Ok(())
}
