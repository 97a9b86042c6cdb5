// The calls on a lent state that synchronise or approve, on numbers and lent runs: a number out. The crate `exports` hands them to C beside those of
// `boundary`, whose definitions and laws they cite. Each is a match: with `and_then` the proof of `sync_page` did not close, since of a table that a closure
// writes nothing is known after it, and the others write tables alike.

#![tactic(auto)]

ghost use Rattle.std.specs.Prelude.{◌≡◌};
ghost use Rattle.model.specs.Guard.{Tables, with_shadow, with_map, with_exclusion, with_three};
ghost use Rattle.model.specs.Calls;
ghost use Rattle.model.specs.Tree.{tree_of};
ghost use Rattle.model.specs.Calls.{sync_page, sync_all, sync_page_tree, sync_all_tree};
ghost use Rattle.boundary_model.specs.Boundary.{returned, call_at};

use encode::PendingPair;

// Synchronise one page.
pub fn sync_page(
    state: &[u64],
    kernel: &[u64],
    shadow: &mut [u64],
    map: &mut [u16],
    exclusion: &[u8],
    page: u64,
    numbers: &mut [u64],
) -> u64
    ensures { (t : Tables) → returned result state.now numbers.new (with_three shadow.new map.new exclusion.now t)
        ≡ call_at state.now numbers.old (with_three shadow.old map.old exclusion.now t) (sync_page kernel.now page) }
{
    match decode::state_of(state, numbers, decode::NUMBERS) {
        Ok(s) => {
            let answer = sync::sync_page(s, kernel, shadow, map, exclusion, page);
            encode::reply(numbers, answer)
        }
        Err(refusal) => encode::reply(numbers, Err(refusal)),
    }
}

// Synchronise all pages.
pub fn sync_all(
    state: &[u64],
    kernel: &[u64],
    shadow: &mut [u64],
    map: &mut [u16],
    exclusion: &[u8],
    numbers: &mut [u64],
) -> u64
    ensures { (t : Tables) → returned result state.now numbers.new (with_three shadow.new map.new exclusion.now t)
        ≡ call_at state.now numbers.old (with_three shadow.old map.old exclusion.now t) (sync_all kernel.now) }
{
    match decode::state_of(state, numbers, decode::NUMBERS) {
        Ok(s) => {
            let answer = sync::sync_all(s, kernel, shadow, map, exclusion);
            encode::reply(numbers, answer)
        }
        Err(refusal) => encode::reply(numbers, Err(refusal)),
    }
}

// Synchronise one page from a tree.
pub fn sync_page_tree(
    state: &[u64],
    tables: &[u64],
    root: u64,
    depth: u64,
    shadow: &mut [u64],
    map: &mut [u16],
    exclusion: &[u8],
    page: u64,
    numbers: &mut [u64],
) -> u64
    ensures { (t : Tables) → returned result state.now numbers.new (with_three shadow.new map.new exclusion.now t)
        ≡ call_at state.now numbers.old (with_three shadow.old map.old exclusion.now t)
        (sync_page_tree (tree_of tables.now root depth) page) }
{
    match decode::state_of(state, numbers, decode::NUMBERS) {
        Ok(s) => {
            let answer = sync_tree::sync_page_tree(
                s, tables, root, depth, shadow, map, exclusion, page,
            );
            encode::reply(numbers, answer)
        }
        Err(refusal) => encode::reply(numbers, Err(refusal)),
    }
}

// Synchronise all pages from a tree.
pub fn sync_all_tree(
    state: &[u64],
    tables: &[u64],
    root: u64,
    depth: u64,
    shadow: &mut [u64],
    map: &mut [u16],
    exclusion: &[u8],
    numbers: &mut [u64],
) -> u64
    ensures { (t : Tables) → returned result state.now numbers.new (with_three shadow.new map.new exclusion.now t)
        ≡ call_at state.now numbers.old (with_three shadow.old map.old exclusion.now t)
        (sync_all_tree (tree_of tables.now root depth)) }
{
    match decode::state_of(state, numbers, decode::NUMBERS) {
        Ok(s) => {
            let answer = sync_tree::sync_all_tree(s, tables, root, depth, shadow, map, exclusion);
            encode::reply(numbers, answer)
        }
        Err(refusal) => encode::reply(numbers, Err(refusal)),
    }
}

// Asks for the approval of a frame for a page (K6).
pub fn ask(
    state: &mut [u64],
    shadow: &[u64],
    map: &[u16],
    exclusion: &mut [u8],
    page: u64,
    frame: u64,
    numbers: &mut [u64],
) -> u64
    ensures { (t : Tables) → returned result state.new numbers.new (with_three shadow.now map.now exclusion.new t)
        ≡ call_at state.old numbers.old (with_three shadow.now map.now exclusion.old t) (Calls.ask page frame) }
{
    match decode::state_of(state, numbers, decode::NUMBERS) {
        Ok(mut s) => {
            let answer = approvals::ask(&mut s, shadow, map, exclusion, page, frame);
            encode::put::<PendingPair>(state, numbers, answer, s)
        }
        Err(refusal) => encode::reply(numbers, Err(refusal)),
    }
}

// Commits what is pending (K6).
pub fn commit(state: &mut [u64], shadow: &mut [u64], map: &mut [u16], numbers: &mut [u64]) -> u64
    ensures { (t : Tables) → returned result state.new numbers.new (with_shadow shadow.new (with_map map.new t))
        ≡ call_at state.old numbers.old (with_shadow shadow.old (with_map map.old t)) Calls.commit }
{
    match decode::state_of(state, numbers, decode::NUMBERS) {
        Ok(mut s) => {
            let answer = approvals::commit(&mut s, shadow, map);
            encode::put::<PendingPair>(state, numbers, answer, s)
        }
        Err(refusal) => encode::reply(numbers, Err(refusal)),
    }
}

// Drops what is pending (K6).
pub fn drop_pending(state: &mut [u64], exclusion: &mut [u8], numbers: &mut [u64]) -> u64
    ensures { (t : Tables) → returned result state.new numbers.new (with_exclusion exclusion.new t)
        ≡ call_at state.old numbers.old (with_exclusion exclusion.old t) Calls.drop }
{
    match decode::state_of(state, numbers, decode::NUMBERS) {
        Ok(mut s) => {
            let answer = approvals::drop_pending(&mut s, exclusion);
            encode::put::<PendingPair>(state, numbers, answer, s)
        }
        Err(refusal) => encode::reply(numbers, Err(refusal)),
    }
}
