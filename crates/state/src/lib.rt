// The mode of a state and its pending pair, read, and a mode with another page.

#![tactic(auto)]

ghost use Rattle.std.specs.Prelude.{◌≡◌};
ghost use Rattle.model.specs.Guard;
ghost use Rattle.model.specs.Guard.{in_user, mode_of, is_pending, pending_frame};

use model::{Mode, NONE, Pending};

// The mode.

#[tactic(auto, unfolding(model::specs::Guard::in_user))]
pub fn in_user(m: Mode) -> bool
    ensures { result ≡ in_user m }
{
    matches!(m, Mode::User(_))
}

// The page now running.
#[tactic(auto, unfolding(model::specs::Guard::running))]
pub fn running(m: Mode) -> u64
    ensures { result ≡ Guard.running m }
{
    match m {
        Mode::Kernel(page) | Mode::User(page) => page,
    }
}

// The same mode, with another page running.
#[tactic(auto, unfolding(model::specs::Guard::mode_of, model::specs::Guard::in_user))]
pub fn on_page(m: Mode, page: u64) -> Mode
    ensures { result ≡ mode_of (in_user m) page }
{
    match m {
        Mode::Kernel(_) => Mode::Kernel(page),
        Mode::User(_) => Mode::User(page),
    }
}

// What is pending (K6): whether a pair is, and its frame.

#[tactic(auto, unfolding(model::specs::Guard::is_pending))]
pub fn is_pending(pending: Option<Pending>) -> bool
    ensures { result ≡ is_pending pending }
{
    pending.is_some()
}

#[tactic(auto, unfolding(model::specs::Guard::pending_frame))]
pub fn pending_frame(pending: Option<Pending>) -> u64
    ensures { result ≡ pending_frame pending }
{
    pending.map_or(NONE as u64, |asked| asked.frame)
}
