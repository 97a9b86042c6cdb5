// Document 02, K4: synchronising one page, and all pages, from a tree. The step of a page is `step`'s, and the loop goes over a run of pages: the 512 that
// share every entry above level 1.

#![tactic(auto)]

ghost use Rattle.std.specs.Prelude.{◌≡◌, true, ℕ, ◌+◌, ◌-◌, ◌%◌, ◌<◌, ◌≤◌, length};
ghost use Rattle.model.specs.Bits.{taken_apart};
ghost use Rattle.model.specs.Guard.{Tables, with_three, guard_of};
ghost use Rattle.model.specs.Tree.{tree_of, flat_at};
ghost use Rattle.model.specs.Sync.{sweep, sweep_from, step_from};
ghost use Rattle.model.specs.Calls.{outcome_by, sync_page_tree, sync_all_tree, answer};
ghost use Rattle.step.specs.Steps.{rules_in};
ghost use Rattle.tree.specs.Parts.{flat_in, Sound, tree_in};
ghost use Rattle.sync_tree.specs.Runs.{swept_from, Gives};

use model::{Answer, Refusal, State};
use std::ops::Range;
use step::{Counts, Rules};
use tree::{Part, Tree};

// The pages that share every entry of a tree above level 1: those of a table.
const PART: usize = tree::ENTRIES as usize;

// Every page of a run, in rising order, on the kernel entry that `entry_of` gives it by how many pages of the run lie before it. Each way of reading entries
// has a loop of its own. No more pages were counted than lie before the run. The tables are two slices, as in `step`.
fn sync_run<F: Fn(usize) -> u64>(
    rules: &Rules,
    entry_of: F,
    shadow: &mut [u64],
    map: &mut [u16],
    pages: Range<usize>,
    counts: Counts,
) -> Counts
    requires within { (pages.start ≤ pages.end) × (pages.end ≤ length shadow.old) × (length map.old ≡ length shadow.old)
        × (counts.changed ≤ pages.start) × (counts.joined ≤ pages.start) }
    requires read { (before : ℕ) → before < pages.end - pages.start → F.pre entry_of before }
    ensures swept { (kernel : ℕ → ℕ) → Gives (F.post entry_of) pages.start pages.end kernel
        → sweep shadow.new map.new result.changed result.joined
        ≡ swept_from (step_from (rules_in rules.now) kernel) pages.start (pages.end - pages.start) (sweep shadow.old map.old counts.changed counts.joined) }
    ensures few { (result.changed ≤ pages.end) × (result.joined ≤ pages.end) }
{
    let first = pages.start;
    let end = pages.end;
    let mut counts = counts;
    for i in first..end {
        counts = rules.sync_at::<false>(entry_of(i - first), shadow, map, i, counts);
    }
    counts
}

// The pages of a tree's part. It begins with a page whose low nine bits are 0.
fn sync_part(
    rules: &Rules,
    words: &[u64],
    part: Part,
    shadow: &mut [u64],
    map: &mut [u16],
    pages: Range<usize>,
    counts: Counts,
) -> Counts
    requires within { (pages.start ≤ pages.end) × (pages.end ≤ length shadow.old) × (length map.old ≡ length shadow.old)
        × (counts.changed ≤ pages.start) × (counts.joined ≤ pages.start) }
    requires one { (pages.start % 512 ≡ 0) × (pages.end - pages.start ≤ 512) × Sound words.now part }
    ensures swept { sweep shadow.new map.new result.changed result.joined
        ≡ swept_from (step_from (rules_in rules.now) (flat_in words.now part)) pages.start (pages.end - pages.start)
        (sweep shadow.old map.old counts.changed counts.joined) }
    ensures few { (result.changed ≤ pages.end) × (result.joined ≤ pages.end) }
{
    match part {
        Part::Table { number, all, any } => {
            let first = number as usize * PART;
            let in_table = |before: usize|
                requires { first + before < length words.now }
            { tree::narrow(all, any, words[first + before]) };
            sync_run(rules, in_table, shadow, map, pages, counts)
        }
        Part::Large(entry) => {
            let in_large = |before: usize| entry + before as u64 * tree::FRAME;
            sync_run(rules, in_large, shadow, map, pages, counts)
        }
        Part::Nowhere => sync_run(rules, |_| 0, shadow, map, pages, counts),
    }
}

// Every page from a tree, part by part.
fn sync_parts(rules: &Rules, tree: &Tree, shadow: &mut [u64], map: &mut [u16]) -> Counts
    requires { length map.old ≡ length shadow.old }
    ensures { sweep shadow.new map.new result.changed result.joined
        ≡ sweep_from (step_from (rules_in rules.now) (flat_at (tree_in tree.now))) 0
        shadow.old map.old }
{
    // The loops below hold a copy in registers; what is behind the reference they would load for each page.
    let rules = *rules;
    let mut counts = Counts::default();
    for number in 0..shadow.len().div_ceil(PART) {
        let first = number * PART;
        let end = shadow.len().min(first + PART);
        let part = tree.part_of(first as u64);
        counts = sync_part(&rules, tree.words, part, shadow, map, first..end, counts);
    }
    counts
}

// Every page from a tree of depth 1, which has no rights above its table, where no page lies past the table: a part of the words is its flat table.
fn sync_table(rules: &Rules, tree: &Tree, shadow: &mut [u64], map: &mut [u16]) -> Counts
    requires { (tree.now.depth ≡ 1) × (length shadow.old ≤ 512) × (length map.old ≡ length shadow.old) }
    ensures { sweep shadow.new map.new result.changed result.joined
        ≡ sweep_from (step_from (rules_in rules.now) (flat_at (tree_in tree.now))) 0
        shadow.old map.old }
{
    let first = tree.root as usize * PART;
    let table = &tree.words[first..first + shadow.len()];
    sync::sync_flat(rules, table, shadow, map)
}

// Every page from a tree.
fn sync_pages(rules: &Rules, tree: &Tree, shadow: &mut [u64], map: &mut [u16]) -> Counts
    requires { length map.old ≡ length shadow.old }
    ensures { sweep shadow.new map.new result.changed result.joined
        ≡ sweep_from (step_from (rules_in rules.now) (flat_at (tree_in tree.now))) 0
        shadow.old map.old }
{
    if tree.depth == 1 && shadow.len() <= PART {
        return sync_table(rules, tree, shadow, map);
    }
    sync_parts(rules, tree, shadow, map)
}

// Synchronise one page from a tree.
pub fn sync_page_tree(
    s: State,
    words: &[u64],
    root: u64,
    depth: u64,
    shadow: &mut [u64],
    map: &mut [u16],
    exclusion: &[u8],
    page: u64,
) -> Answer
    ensures { (t : Tables) → outcome_by result s (with_three shadow.new map.new exclusion.now t)
        ≡ answer (guard_of s (with_three shadow.old map.old exclusion.now t))
        (sync_page_tree (tree_of words.now root depth) page) }
{
    if !lengths::three_tables_in_order(s, shadow.len(), map.len(), exclusion.len()) {
        return Err(Refusal::StateOrTable);
    }
    let tree = Tree::new(words, root, depth)?;
    if !limits::page_exists(page, s.pages) {
        return Err(Refusal::DoesNotExist);
    }
    let entry = tree.word_of(page);
    let i = page as usize;
    let rules = sync::rules_of(s, exclusion);
    let one = rules.sync_at::<false>(entry, shadow, map, i, Counts::default());
    Ok((one.changed, one.joined))
}

// Synchronise all pages from a tree.
pub fn sync_all_tree(
    s: State,
    words: &[u64],
    root: u64,
    depth: u64,
    shadow: &mut [u64],
    map: &mut [u16],
    exclusion: &[u8],
) -> Answer
    ensures { (t : Tables) → outcome_by result s (with_three shadow.new map.new exclusion.now t)
        ≡ answer (guard_of s (with_three shadow.old map.old exclusion.now t))
        (sync_all_tree (tree_of words.now root depth)) }
{
    if !lengths::three_tables_in_order(s, shadow.len(), map.len(), exclusion.len()) {
        return Err(Refusal::StateOrTable);
    }
    let tree = Tree::new(words, root, depth)?;
    let rules = sync::rules_of(s, exclusion);
    let all = sync_pages(&rules, &tree, shadow, map);
    Ok((all.changed, all.joined))
}
