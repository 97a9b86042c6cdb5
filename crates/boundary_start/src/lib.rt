// The calls on numbers and lent runs that read no state: the start, which writes one, the record and the walk. The crate `exports` hands them to C beside those
// of `boundary`, whose definitions they share; they are a crate of their own so that an edit of either is checked in less time.

#![tactic(auto)]

ghost use Rattle.std.specs.Prelude.{◌≡◌};
ghost use Rattle.model.specs.Guard.{tables};
ghost use Rattle.model.specs.Policy.{given_of};
ghost use Rattle.model.specs.Tree.{tree_of};
ghost use Rattle.record_model.specs.Record.{policy_by};
ghost use Rattle.boundary_model.specs.Boundary.{returned, start_at, recorded, record_at, walked, walk_at};

use encode::WholeState;
use model::Refusal;

pub fn start(
    policy: &[u8],
    devices: u64,
    state: &mut [u64],
    shadow: &mut [u64],
    map: &mut [u16],
    exclusion: &mut [u8],
    numbers: &mut [u64],
) -> u64
    ensures { returned result state.new numbers.new (tables shadow.new map.new exclusion.new)
        ≡ start_at (given_of devices) policy.now state.old numbers.old (tables shadow.old map.old exclusion.old) }
{
    if !decode::runs_fit(state, numbers, decode::NUMBERS) {
        // The record's questions come first.
        let answer = policy::record_question(policy, devices).and(Err(Refusal::StateOrTable));
        return encode::reply(numbers, answer);
    }
    let mut s = start::refused_state();
    let answer = start::start(policy, devices, &mut s, shadow, map, exclusion);
    encode::put::<WholeState>(state, numbers, answer, s)
}

// Writes a policy record.
pub fn write_record(
    pages: u64,
    frames: u64,
    count: u64,
    entry_count: u64,
    listed_pages: &[u16],
    listed_frames: &[u16],
    buffer: &mut [u8],
    numbers: &mut [u64],
) -> u64
    ensures { recorded result buffer.new numbers.new
        ≡ record_at (policy_by pages frames count entry_count listed_pages.now listed_frames.now) buffer.old numbers.old }
{
    let fits = numbers.len() == decode::NUMBERS;
    let answer = record::write_record(
        pages,
        frames,
        count,
        entry_count,
        listed_pages,
        listed_frames,
        buffer,
        fits,
    );
    encode::reply(numbers, answer)
}

// Walks a page down a tree.
pub fn walk(tables: &[u64], root: u64, depth: u64, page: u64, numbers: &mut [u64]) -> u64
    ensures { walked result numbers.new ≡ walk_at (tree_of tables.now root depth) page numbers.old }
{
    let numbers_fit = numbers.len() == decode::NUMBERS;
    let answer = tree::walk(tables, root, depth, page, numbers_fit);
    encode::reply(numbers, answer)
}
