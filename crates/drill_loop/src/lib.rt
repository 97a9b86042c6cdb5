// Document 01, "The drill program": the decisions of the loop over the drill's calls, which the program asks.

#![tactic(auto)]

ghost use Rattle.std.specs.Prelude.{◌≡◌};
ghost use Rattle.drill_model.specs.Drill.{call_limit};
ghost use Rattle.drill_loop.specs.Loop.{goes_on, left_after, LoopsAsDefined};

// How many calls may be made, whether one more is, and how many are left after it.

#[tactic(auto, unfolding(drill_model::specs::Drill::call_limit))]
pub fn call_limit() -> u16
    ensures { result ≡ call_limit }
{
    1024
}

#[tactic(auto, unfolding(crate::specs::Loop::goes_on))]
pub fn goes_on(left: u16) -> bool
    ensures { result ≡ goes_on left }
{
    0 < left
}

#[tactic(auto, unfolding(crate::specs::Loop::left_after))]
pub fn left_after(left: u16, goes: bool) -> u16
    ensures { result ≡ left_after left goes }
{
    if goes { left.saturating_sub(1) } else { 0 }
}

// These decisions make the drill's lines of calls as they are defined.
pub fn loops_as_defined()
    ensures { LoopsAsDefined }
{}
