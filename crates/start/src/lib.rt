// Document 01, "The policy record": the start. It asks questions 1 to 7, sets every table and leaves the first state.
// Each loop is a function, and the record is read through the policy crate's reader alone.

#![tactic(auto)]

ghost use Rattle.std.specs.Prelude.{◌≡◌, length, get_or, Err};
ghost use Rattle.model.specs.Guard.{tables, vector_bytes};
ghost use Rattle.model.specs.Policy.{given_of, policy_of, start_state, start_tables, zero_state};
ghost use Rattle.model.specs.Calls.{outcome_by, start_of};
ghost use Rattle.start.specs.Start.{stored_each, approved_each, with_each, entry_table};

use model::{Answer, ENTRY_PAGES, Mode, NONE, Refusal, State, VECTOR_BYTES};
use policy::Record;

// The listed places of both tables and the exclusion bits of the listed frames, in one loop. Every listed page is inside the tables, and every listed
// frame inside a vector of 4,096 bits, so no index is tested again.
fn set_listed(policy: Record, shadow: &mut [u64], map: &mut [u16], vector: &mut [u8])
    requires { (length shadow.old ≡ (policy_of policy.bytes.now).pages) × (length map.old ≡ (policy_of policy.bytes.now).pages)
        × (length vector.old ≡ 512) }
    ensures { (shadow.new ≡ stored_each (policy_of policy.entry.bytes.now).listed_pages
        (approved_each (policy_of policy.entry.bytes.now).listed_frames) shadow.old)
        × (map.new ≡ stored_each (policy_of policy.entry.bytes.now).listed_pages
        (policy_of policy.entry.bytes.now).listed_frames map.old)
        × (vector.new ≡ with_each (policy_of policy.entry.bytes.now).listed_frames vector.old) }
{
    for (page, frame) in policy.listed_pages().zip(policy.listed_frames()) {
        let place = page as usize;
        shadow[place] = shadow_entry::approved(false, frame);
        map[place] = frame;
        bitmap::set_bit_within(vector, frame as u64);
    }
}

// The three tables, whose lengths question 7 has settled. The exclusion bits are gathered in a buffer with room for 4,096 frames, and copied.
fn set_tables(policy: Record, shadow: &mut [u64], map: &mut [u16], exclusion: &mut [u8])
    requires { (length shadow.old ≡ (policy_of policy.bytes.now).pages) × (length map.old ≡ (policy_of policy.bytes.now).pages)
        × (length exclusion.old ≡ vector_bytes (policy_of policy.bytes.now).frames) }
    ensures { (shadow.new ≡ (start_tables (policy_of policy.entry.bytes.now)).shadow)
        × (map.new ≡ (start_tables (policy_of policy.entry.bytes.now)).map)
        × (exclusion.new ≡ (start_tables (policy_of policy.entry.bytes.now)).exclusion) }
{
    shadow.fill(0);
    map.fill(NONE);
    let mut buffer = [0u8; VECTOR_BYTES];
    set_listed(policy, shadow, map, &mut buffer);
    exclusion.copy_from_slice(&buffer[..exclusion.len()]);
}

// The entry pages. Question 3 has bounded the entries by sixteen, the array's length.
fn entry_pages(policy: Record) -> [u64; ENTRY_PAGES]
    ensures { result ≡ entry_table policy.entry.bytes.now policy.entry.sizes.entry_count }
{
    let mut pages = [0u64; ENTRY_PAGES];
    for (i, page) in policy.entry_pages().enumerate() {
        pages[i] = page as u64;
    }
    pages
}

// The first entry page. It is read from the record once more: where it is read from the array of entry pages, the compiler copies that on the stack.
#[tactic(auto, using(crate::proofs::StartLaws::first_of))]
fn first_page(policy: Record) -> u16
    ensures { result ≡ get_or (policy_of policy.entry.bytes.now).listed_pages 0 0 }
{
    policy.listed_pages().next().unwrap_or(0)
}

// The state of an accepted start stands in kernel mode on the first entry page.
fn first_state(policy: Record, devices: u64) -> State
    ensures { result ≡ start_state (given_of devices) (policy_of policy.entry.bytes.now) }
{
    let sizes = policy.sizes;
    let entry_pages = entry_pages(policy);
    State {
        pages: sizes.pages as u64,
        frames: sizes.frames as u64,
        entry_count: sizes.entry_count as u64,
        entry_pages,
        mode: Mode::Kernel(first_page(policy) as u64),
        devices,
        pending: None,
    }
}

// What a refused start answers for a state, as it has none to keep: zeros, in user mode on page 0.
#[tactic(auto, unfolding(model::specs::Policy::zero_state, model::specs::Basics::table, model::specs::Basics::table_from))]
pub fn refused_state() -> State
    ensures { result ≡ zero_state }
{
    State {
        pages: 0,
        frames: 0,
        entry_count: 0,
        entry_pages: [0; ENTRY_PAGES],
        mode: Mode::User(0),
        devices: 0,
        pending: None,
    }
}

// A refused start leaves that state, whatever it was lent.
fn refuse(s: &mut State, refusal: Refusal) -> Answer
    ensures { (result ≡ Err refusal) × (s.new ≡ zero_state) }
{
    *s = refused_state();
    Err(refusal)
}

// Answers n and e, and leaves the first state in `s`. A refused start leaves `refused_state` there.
pub fn start(
    bytes: &[u8],
    devices: u64,
    s: &mut State,
    shadow: &mut [u64],
    map: &mut [u16],
    exclusion: &mut [u8],
) -> Answer
    ensures { outcome_by result s.new (tables shadow.new map.new exclusion.new)
        ≡ start_of (given_of devices) bytes.now (tables shadow.old map.old exclusion.old) }
{
    let policy = match policy::accepted(bytes, devices) {
        Ok(policy) => policy,
        Err(refusal) => return refuse(s, refusal),
    };
    let sizes = policy.sizes;
    if !lengths::start_in_order(
        sizes.pages,
        sizes.frames,
        shadow.len(),
        map.len(),
        exclusion.len(),
    ) {
        return refuse(s, Refusal::StateOrTable);
    }
    set_tables(policy, shadow, map, exclusion);
    *s = first_state(policy, devices);
    Ok((sizes.count as u64, sizes.entry_count as u64))
}
