// Document 01, "Calls and their two numbers": enter and leave, and the mode switch of the whole shadow table.
// Each call goes down its questions in order, and switches the mode where none refuses it.

#![tactic(auto)]

ghost use Rattle.std.specs.Prelude.{◌≡◌};
ghost use Rattle.model.specs.Calls;
ghost use Rattle.model.specs.Calls.{outcome_by, switch_to, answer};
ghost use Rattle.model.specs.Guard.{Tables, with_shadow, guard_of};
ghost use Rattle.model.specs.Questions.{leave_permitted};
ghost use Rattle.model.specs.Switch;
ghost use Rattle.model.specs.Switch.{switched_all};

use model::{Answer, Mode, Refusal, State};

// Bit 63 of every present entry by the rules of the mode; the count of entries whose value changed.
fn switch_table(user: bool, shadow: &mut [u64]) -> u64
    ensures { (shadow.new ≡ switched_all user shadow.old) × (result ≡ Switch.changes shadow.old (switched_all user shadow.old)) }
{
    let mut changed = 0;
    for entry in shadow.iter_mut() {
        let change = shadow_entry::switch_change(user, *entry);
        *entry ^= change;
        changed += change / entry::NO_EXECUTE;
    }
    changed
}

// "Both switch the mode, run that page, and give the count of changed shadow entries and 0."
#[tactic(auto, using(laws::proofs::AskedLaws::answered), unfolding(model::specs::Calls::switch_to, model::specs::Guard::in_mode))]
fn switch_to(s: &mut State, shadow: &mut [u64], mode: Mode) -> Answer
    ensures { (t : Tables) → outcome_by result s.new (with_shadow shadow.new t)
        ≡ switch_to (guard_of s.old (with_shadow shadow.old t)) mode }
{
    let changed = switch_table(state::in_user(mode), shadow);
    s.mode = mode;
    Ok((changed, 0))
}

// Question 12 of leaving to a page.
#[tactic(auto, using(laws::proofs::AskedLaws::asked), unfolding(model::specs::Questions::leave_permitted))]
fn leave_permitted(entry: u64) -> bool
    ensures { result ≡ leave_permitted entry }
{
    entry::user_bit(entry) && !entry::kernel_no_execute(entry)
}

#[tactic(auto, using(laws::proofs::AskedLaws::answered, crate::proofs::EnterLeaveLaws::enters))]
pub fn enter(s: &mut State, shadow: &mut [u64], index: u64) -> Answer
    ensures { (t : Tables) → outcome_by result s.new (with_shadow shadow.new t)
        ≡ answer (guard_of s.old (with_shadow shadow.old t)) (Calls.enter index) }
{
    if !lengths::shadow_in_order(*s, shadow.len()) {
        return Err(Refusal::StateOrTable);
    }
    if !limits::entry_exists(*s, index) {
        return Err(Refusal::DoesNotExist);
    }
    if !state::in_user(s.mode) {
        return Err(Refusal::WrongMode);
    }
    let page = limits::entry_page(*s, index);
    let entry = shadow[page as usize];
    if !entry::present(entry) {
        return Err(Refusal::NotPresent);
    }
    if !entry::approved_mark(entry) {
        return Err(Refusal::NotPermitted);
    }
    switch_to(s, shadow, Mode::Kernel(page))
}

#[tactic(auto, using(laws::proofs::AskedLaws::answered, crate::proofs::EnterLeaveLaws::leaves))]
pub fn leave(s: &mut State, shadow: &mut [u64], page: u64) -> Answer
    ensures { (t : Tables) → outcome_by result s.new (with_shadow shadow.new t)
        ≡ answer (guard_of s.old (with_shadow shadow.old t)) (Calls.leave page) }
{
    if !lengths::shadow_in_order(*s, shadow.len()) {
        return Err(Refusal::StateOrTable);
    }
    if !limits::page_exists(page, s.pages) {
        return Err(Refusal::DoesNotExist);
    }
    if state::in_user(s.mode) {
        return Err(Refusal::WrongMode);
    }
    let entry = shadow[page as usize];
    if !entry::present(entry) {
        return Err(Refusal::NotPresent);
    }
    if !leave_permitted(entry) {
        return Err(Refusal::NotPermitted);
    }
    switch_to(s, shadow, Mode::User(page))
}
