// The guard's calls for C and Rust: an archive has the exported functions of its own crate alone, so each is handed on here.
// include/guard.h documents them. Each promises what the crate below it promises.

#![tactic(auto)]

ghost use Rattle.std.specs.Prelude.{◌≡◌};
ghost use Rattle.model.specs.Guard.{Tables, tables, with_shadow, with_map, with_exclusion, with_three};
ghost use Rattle.model.specs.Policy.{given_of};
ghost use Rattle.model.specs.Tree.{tree_of};
ghost use Rattle.model.specs.Calls.{sync_page, sync_all, sync_page_tree, sync_all_tree, fetch, write, enter, leave, device_write, ask, commit, drop};
ghost use Rattle.record_model.specs.Record.{policy_by};
ghost use Rattle.boundary_model.specs.Boundary.{returned, start_at, call_at, recorded, record_at, walked, walk_at};

use model::Device;

// The number of the boundary, which is in the name too. include/guard.h and rust/guard refer to this function by its address, so a
// program that was compiled for another boundary does not link. docs/DECISIONS.md, "The boundary", says what raises the number.
#[unsafe(no_mangle)]
pub extern "C" fn guard_boundary_1() -> u64
    ensures { result ≡ 1 }
{
    1
}

#[unsafe(no_mangle)]
pub extern "C" fn guard_start(
    policy: &[u8],
    devices: u64,
    state: &mut [u64],
    shadow: &mut [u64],
    map: &mut [u16],
    exclusion: &mut [u8],
    numbers: &mut [u64],
) -> u64
    ensures { returned result state.new numbers.new (tables shadow.new map.new exclusion.new)
        ≡ start_at (given_of devices) policy.now state.old numbers.old (tables shadow.old map.old exclusion.old) }
{
    boundary_start::start(policy, devices, state, shadow, map, exclusion, numbers)
}

// Writes a policy record.
#[unsafe(no_mangle)]
pub extern "C" fn guard_write_record(
    pages: u64,
    frames: u64,
    count: u64,
    entry_count: u64,
    listed_pages: &[u16],
    listed_frames: &[u16],
    buffer: &mut [u8],
    numbers: &mut [u64],
) -> u64
    ensures { recorded result buffer.new numbers.new
        ≡ record_at (policy_by pages frames count entry_count listed_pages.now listed_frames.now) buffer.old numbers.old }
{
    boundary_start::write_record(
        pages,
        frames,
        count,
        entry_count,
        listed_pages,
        listed_frames,
        buffer,
        numbers,
    )
}

// Synchronise one page.
#[unsafe(no_mangle)]
pub extern "C" fn guard_sync_page(
    state: &[u64],
    kernel: &[u64],
    shadow: &mut [u64],
    map: &mut [u16],
    exclusion: &[u8],
    page: u64,
    numbers: &mut [u64],
) -> u64
    ensures { (t : Tables) → returned result state.now numbers.new (with_three shadow.new map.new exclusion.now t)
        ≡ call_at state.now numbers.old (with_three shadow.old map.old exclusion.now t) (sync_page kernel.now page) }
{
    boundary_sync::sync_page(state, kernel, shadow, map, exclusion, page, numbers)
}

// Synchronise all pages.
#[unsafe(no_mangle)]
pub extern "C" fn guard_sync_all(
    state: &[u64],
    kernel: &[u64],
    shadow: &mut [u64],
    map: &mut [u16],
    exclusion: &[u8],
    numbers: &mut [u64],
) -> u64
    ensures { (t : Tables) → returned result state.now numbers.new (with_three shadow.new map.new exclusion.now t)
        ≡ call_at state.now numbers.old (with_three shadow.old map.old exclusion.now t) (sync_all kernel.now) }
{
    boundary_sync::sync_all(state, kernel, shadow, map, exclusion, numbers)
}

// Walks a page down a tree.
#[unsafe(no_mangle)]
pub extern "C" fn guard_walk(
    tables: &[u64],
    root: u64,
    depth: u64,
    page: u64,
    numbers: &mut [u64],
) -> u64
    ensures { walked result numbers.new ≡ walk_at (tree_of tables.now root depth) page numbers.old }
{
    boundary_start::walk(tables, root, depth, page, numbers)
}

// Synchronise one page from a tree.
#[unsafe(no_mangle)]
pub extern "C" fn guard_sync_page_tree(
    state: &[u64],
    tables: &[u64],
    root: u64,
    depth: u64,
    shadow: &mut [u64],
    map: &mut [u16],
    exclusion: &[u8],
    page: u64,
    numbers: &mut [u64],
) -> u64
    ensures { (t : Tables) → returned result state.now numbers.new (with_three shadow.new map.new exclusion.now t)
        ≡ call_at state.now numbers.old (with_three shadow.old map.old exclusion.now t)
        (sync_page_tree (tree_of tables.now root depth) page) }
{
    boundary_sync::sync_page_tree(
        state, tables, root, depth, shadow, map, exclusion, page, numbers,
    )
}

// Synchronise all pages from a tree.
#[unsafe(no_mangle)]
pub extern "C" fn guard_sync_all_tree(
    state: &[u64],
    tables: &[u64],
    root: u64,
    depth: u64,
    shadow: &mut [u64],
    map: &mut [u16],
    exclusion: &[u8],
    numbers: &mut [u64],
) -> u64
    ensures { (t : Tables) → returned result state.now numbers.new (with_three shadow.new map.new exclusion.now t)
        ≡ call_at state.now numbers.old (with_three shadow.old map.old exclusion.now t)
        (sync_all_tree (tree_of tables.now root depth)) }
{
    boundary_sync::sync_all_tree(state, tables, root, depth, shadow, map, exclusion, numbers)
}

#[unsafe(no_mangle)]
pub extern "C" fn guard_fetch(
    state: &mut [u64],
    shadow: &[u64],
    page: u64,
    numbers: &mut [u64],
) -> u64
    ensures { (t : Tables) → returned result state.new numbers.new (with_shadow shadow.now t)
        ≡ call_at state.old numbers.old (with_shadow shadow.now t) (fetch page) }
{
    boundary::fetch(state, shadow, page, numbers)
}

#[unsafe(no_mangle)]
pub extern "C" fn guard_write(
    state: &[u64],
    shadow: &[u64],
    exclusion: &[u8],
    address: u64,
    length: u64,
    numbers: &mut [u64],
) -> u64
    ensures { (t : Tables) → returned result state.now numbers.new (with_shadow shadow.now (with_exclusion exclusion.now t))
        ≡ call_at state.now numbers.old (with_shadow shadow.now (with_exclusion exclusion.now t)) (write address length) }
{
    boundary::write(state, shadow, exclusion, address, length, numbers)
}

#[unsafe(no_mangle)]
pub extern "C" fn guard_enter(
    state: &mut [u64],
    shadow: &mut [u64],
    index: u64,
    numbers: &mut [u64],
) -> u64
    ensures { (t : Tables) → returned result state.new numbers.new (with_shadow shadow.new t)
        ≡ call_at state.old numbers.old (with_shadow shadow.old t) (enter index) }
{
    boundary::enter(state, shadow, index, numbers)
}

#[unsafe(no_mangle)]
pub extern "C" fn guard_leave(
    state: &mut [u64],
    shadow: &mut [u64],
    page: u64,
    numbers: &mut [u64],
) -> u64
    ensures { (t : Tables) → returned result state.new numbers.new (with_shadow shadow.new t)
        ≡ call_at state.old numbers.old (with_shadow shadow.old t) (leave page) }
{
    boundary::leave(state, shadow, page, numbers)
}

// The list of devices is lent as it stands in memory, and no copy is made of it (K5).
#[unsafe(no_mangle)]
pub extern "C" fn guard_device_write(
    state: &[u64],
    exclusion: &[u8],
    devices: &[Device],
    device: u64,
    address: u64,
    length: u64,
    numbers: &mut [u64],
) -> u64
    ensures { (t : Tables) → returned result state.now numbers.new (with_exclusion exclusion.now t)
        ≡ call_at state.now numbers.old (with_exclusion exclusion.now t) (device_write devices.now device address length) }
{
    let window = devices::look_up(devices, device as usize);
    boundary::device_write(
        state,
        exclusion,
        devices.len(),
        window,
        device,
        address,
        length,
        numbers,
    )
}

// Asks for the approval of a frame for a page (K6).
#[unsafe(no_mangle)]
pub extern "C" fn guard_ask(
    state: &mut [u64],
    shadow: &[u64],
    map: &[u16],
    exclusion: &mut [u8],
    page: u64,
    frame: u64,
    numbers: &mut [u64],
) -> u64
    ensures { (t : Tables) → returned result state.new numbers.new (with_three shadow.now map.now exclusion.new t)
        ≡ call_at state.old numbers.old (with_three shadow.now map.now exclusion.old t) (ask page frame) }
{
    boundary_sync::ask(state, shadow, map, exclusion, page, frame, numbers)
}

// Commits what is pending (K6).
#[unsafe(no_mangle)]
pub extern "C" fn guard_commit(
    state: &mut [u64],
    shadow: &mut [u64],
    map: &mut [u16],
    numbers: &mut [u64],
) -> u64
    ensures { (t : Tables) → returned result state.new numbers.new (with_shadow shadow.new (with_map map.new t))
        ≡ call_at state.old numbers.old (with_shadow shadow.old (with_map map.old t)) commit }
{
    boundary_sync::commit(state, shadow, map, numbers)
}

// Drops what is pending (K6).
#[unsafe(no_mangle)]
pub extern "C" fn guard_drop(state: &mut [u64], exclusion: &mut [u8], numbers: &mut [u64]) -> u64
    ensures { (t : Tables) → returned result state.new numbers.new (with_exclusion exclusion.new t)
        ≡ call_at state.old numbers.old (with_exclusion exclusion.old t) drop }
{
    boundary_sync::drop_pending(state, exclusion, numbers)
}
