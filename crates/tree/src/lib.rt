// Document 02, K4: the walk of a page down a tree of tables.
// The 512 pages that differ in page bits 0 to 8 alone share every entry above level 1: the walk down to there serves them all.

#![tactic(auto)]

ghost use Rattle.std.specs.Prelude.{◌≡◌, true, false, ℕ, ◌+◌, ◌-◌, ◌*◌, ◌/◌, ◌%◌, ◌^◌, ◌≤◌, ◌<◌, ltb, length, MatchResult, Ok};
ghost use Rattle.model.specs.Bits.{taken_apart};
ghost use Rattle.model.specs.Calls.{reply_of};
ghost use Rattle.model.specs.Refusals.{number_of};
ghost use Rattle.model.specs.Tree.{tree_of, tree_in_order, walk_from, flat_at, reads_at};
ghost use Rattle.model.specs.Walks.{walk_reply};
ghost use Rattle.tree.specs.Parts.{rights_by, last_flat, walk_word, flat_in, Sound, tree_in};

mod given;

pub use entry::FRAME;
use entry::ValidEntry;
pub use given::Tree;
use model::{Answer, Refusal};

// "tables of 512 entries": nine page bits choose one of them.
pub const ENTRIES: u64 = 512;

const PLACE_BITS: u32 = 9;

const LEAST_DEPTH: u64 = 1;

const MOST_DEPTH: u64 = 3;

// The weights of bits. Division and remainder by them are shifts and masks.
const WRITABLE: u64 = 0x2;

const WRITE_THROUGH: u64 = 0x8;

const LARGE: u64 = 0x80;

// Where a walk's word has the count of entries read.
const COUNT: u64 = 0x20;

const EVERY_BIT: u64 = 0xffff_ffff_ffff_ffff;

// A part: where the walk of 512 pages goes on below the entries that they share. In the table of level 1 with a number, below entries whose bits are `all` in
// all of them and `any` in any: of both words only bits 1, 2 and 63 mean something. In the large page with an entry, whose rights are its own. Or nowhere:
// they are absent.
#[derive(Clone, Copy)]
pub enum Part {
    Table { number: u64, all: u64, any: u64 },
    Large(u64),
    Nowhere,
}

// Question 17.
pub fn in_order(words: &[u64], root: u64, depth: u64) -> bool
    ensures { result ≡ tree_in_order (tree_of words.now root depth) }
{
    let length = words.len() as u64;
    if length % ENTRIES != 0 || depth < LEAST_DEPTH || MOST_DEPTH < depth {
        return false;
    }
    root < length / ENTRIES
}

// The flat entry of a last entry: its present bit, cache bits and frame, writable and user where all have them, no-execute where any has it. A valid
// entry has nothing between its frame and bit 63. `% 4` takes two bits that stand side by side.
#[tactic(auto, using(crate::proofs::BitLaws::flat_made))]
fn flat(all: u64, any: u64, entry: ValidEntry) -> u64
    ensures { result ≡ last_flat (rights_by all any) (taken_apart entry.bits) }
{
    let entry = entry.bits;
    let rights = (all & entry) / WRITABLE % 4 * WRITABLE;
    let top = any / entry::NO_EXECUTE * entry::NO_EXECUTE;
    entry / FRAME * FRAME + entry / WRITE_THROUGH % 4 * WRITE_THROUGH + rights + entry % 2 | top
}

// A last entry narrowed to the rights that the entries above leave: the same entry with other bits 1, 2 and 63. It is taken apart as the flat entry is,
// and absent where that is 0. A synchronisation asks no more, and asks itself whether it is absent.
#[tactic(auto, using(crate::proofs::BitLaws::narrowed_apart))]
pub fn narrow(all: u64, any: u64, entry: u64) -> u64
    ensures { taken_apart result ≡ taken_apart (last_flat (rights_by all any) (taken_apart entry)) }
{
    entry / WRITE_THROUGH * WRITE_THROUGH + (all & entry) / WRITABLE % 4 * WRITABLE + entry % 2
        | any / entry::NO_EXECUTE * entry::NO_EXECUTE
}

// The walk from a level down to the table of level 1, whose entry is not read here, in the table with this number, by the rights gathered above it. None
// are gathered above level 2. Each call is one level down; the run is behind a reference, and the levels stand as numbers, as in `walk_from`. One recursion
// for both was tried with the kit of its time, and synchronising one page then took more instructions than plain Rust does.
fn part_from(run: &&[u64], page: u64, level: u32, all: u64, any: u64, number: u64) -> Part
    requires { (1 ≤ level) × (level ≤ 3) × (2 ≤ level → (all ≡ 2 ^ 64 - 1) × (any ≡ 0)) × (length run.now.now < 2 ^ 61) }
    ensures { Sound run.now.now result × ((p : ℕ) → p / 512 ≡ page / 512
        → (walk_from run.now.now p level (rights_by all any) number).flat ≡ flat_in run.now.now result p) }
{
    let words = *run;
    let tables = words.len() as u64 / ENTRIES;
    if tables <= number {
        return Part::Nowhere;
    }
    if level == 1 {
        return Part::Table { number, all, any };
    }
    let upper = words[(number * ENTRIES + (page >> PLACE_BITS * (level - 1)) % ENTRIES) as usize];
    let Some(valid) = ValidEntry::new(upper) else {
        return Part::Nowhere;
    };
    let frame = valid.frame();
    if level == 2 {
        if upper / LARGE % 2 == 0 {
            return part_from(run, page, 1, all & upper, any | upper, frame);
        }
        if frame % ENTRIES != 0 {
            return Part::Nowhere;
        }
        return Part::Large(upper);
    }
    // "at level 3 these three bits do not count"
    part_from(run, page, 2, all, any, frame)
}

// "A page whose number needs more bits than the depth has is absent". It asks for a depth that question 17 has let pass, so that a number has those bits.
#[tactic(auto, using(crate::proofs::DownLaws::reached))]
fn reaches(depth: u64, page: u64) -> bool
    requires { depth ≤ 3 }
    ensures { result ≡ ltb page (2 ^ (9 * depth)) }
{
    page >> PLACE_BITS * depth as u32 == 0
}

// The walk from a level down, in the table with this number, by the rights gathered above it: the flat entry, with the count of entries read in bits 5
// and 6, where a flat entry has nothing. One word is returned in a register; a struct goes through memory at each level. `count`: those read above, in its
// place; it asks that with one at each level they are three at most. The run is behind a reference, and the levels stand as numbers, so that the compiler makes
// straight code of the recursion: a slice would be copied, and its copy passed by address, at each call. The length of a slice behind a reference has no bound,
// so that it is asked for: every slice of words has it.
fn walk_from(
    run: &&[u64],
    page: u64,
    level: u32,
    all: u64,
    any: u64,
    number: u64,
    count: u64,
) -> u64
    requires { (1 ≤ level) × (count + level * 2 ^ 5 ≤ 3 * 2 ^ 5) × (length run.now.now < 2 ^ 61) }
    ensures { result ≡ walk_word (walk_from run.now.now page level (rights_by all any) number) + count }
{
    let words = *run;
    if words.len() as u64 / ENTRIES <= number {
        return count;
    }
    let place = (page >> PLACE_BITS * (level - 1)) % ENTRIES;
    let entry = words[(number * ENTRIES + place) as usize];
    let count = count + COUNT;
    let Some(valid) = ValidEntry::new(entry) else {
        return count;
    };
    let frame = valid.frame();
    if level == 1 {
        return flat(all, any, valid) + count;
    }
    if level == 2 {
        if entry / LARGE % 2 == 0 {
            return walk_from(run, page, 1, all & entry, any | entry, frame, count);
        }
        if frame % ENTRIES != 0 {
            return count;
        }
        return flat(all, any, valid) + page % ENTRIES * FRAME + count;
    }
    // "at level 3 these three bits do not count"
    walk_from(run, page, 2, all, any, frame, count)
}

impl<'a> Tree<'a> {
    // Question 17.
    pub fn new(words: &'a [u64], root: u64, depth: u64) -> Result<Self, Refusal>
        ensures { MatchResult result (λ t. tree_in t ≡ tree_of words.now root depth)
            (λ refusal. (number_of refusal ≡ 17) × (tree_in_order (tree_of words.now root depth) ≡ false)) }
    {
        if !in_order(words, root, depth) {
            return Err(Refusal::Tree);
        }
        Ok(Tree { words, root, depth })
    }

    // The part of a page. A tree of depth 1 has no level above.
    pub fn part_of(&self, page: u64) -> Part
        ensures { Sound self.now.words.now result × ((p : ℕ) → p / 512 ≡ page / 512
            → flat_at (tree_in self.now) p ≡ flat_in self.now.words.now result p) }
    {
        if !reaches(self.depth, page) {
            return Part::Nowhere;
        }
        part_from(
            &self.words,
            page,
            self.depth as u32,
            EVERY_BIT,
            0,
            self.root,
        )
    }

    // An entry that is taken apart as the flat entry of a page is: a synchronisation asks no more. A depth is a constant where this is called, so that it has
    // straight code of its own, and the compiler makes no call of it.
    fn word_at<const DEPTH: u64>(&self, page: u64) -> u64
        requires { self.now.depth ≡ DEPTH }
        ensures { taken_apart result ≡ taken_apart (flat_at (tree_in self.now) page) }
    {
        if !reaches(DEPTH, page) {
            return 0;
        }
        walk_from(&self.words, page, DEPTH as u32, EVERY_BIT, 0, self.root, 0)
    }

    // The same, by the number that the depth is.
    pub fn word_of(&self, page: u64) -> u64
        ensures { taken_apart result ≡ taken_apart (flat_at (tree_in self.now) page) }
    {
        match self.depth {
            1 => self.word_at::<1>(page),
            2 => self.word_at::<2>(page),
            _ => self.word_at::<3>(page),
        }
    }

    // The walk of a page, at each depth by code of its own.
    fn walk_down<const DEPTH: u64>(&self, page: u64) -> Answer
        requires { self.now.depth ≡ DEPTH }
        ensures { result ≡ Ok (flat_at (tree_in self.now) page, reads_at (tree_in self.now) page) }
    {
        if !reaches(DEPTH, page) {
            return Ok((0, 0));
        }
        let word = walk_from(&self.words, page, DEPTH as u32, EVERY_BIT, 0, self.root, 0);
        Ok((word / LARGE * LARGE + word % COUNT, word / COUNT % 4))
    }
}

// Walks a page. `numbers_fit`: the run for the call's numbers, where it is lent one, has its length.
pub fn walk(words: &[u64], root: u64, depth: u64, page: u64, numbers_fit: bool) -> Answer
    ensures { reply_of result ≡ walk_reply numbers_fit (tree_of words.now root depth) page }
{
    if !numbers_fit {
        return Err(Refusal::StateOrTable);
    }
    let tree = Tree::new(words, root, depth)?;
    match tree.depth {
        1 => tree.walk_down::<1>(page),
        2 => tree.walk_down::<2>(page),
        _ => tree.walk_down::<3>(page),
    }
}
