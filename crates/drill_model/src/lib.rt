// The functions that carry the theorems about the drill's definitions, which stand in specs/.

#![tactic(auto)]

ghost use Rattle.std.specs.Prelude.{◌≡◌, ◌++◌};
ghost use Rattle.model.specs.Cases.{Hold};
ghost use Rattle.drill_model.specs.Drill.{drill_output};
ghost use Rattle.drill_model.specs.DrillCases.{drill_cases, share_cases, window_cases, Limit};
ghost use Rattle.drill_model.specs.Share.{ShareNearest, NearestFixed, SomeExcluded, ShareLast};
ghost use Rattle.drill_model.specs.Worked.{worked_input, worked_output};

// Document 01, the worked example: every byte of its output follows from the drill's definitions.
pub fn worked_example()
    ensures { drill_output worked_input ≡ worked_output }
{}

// The drill beside the worked example: its output on small inputs, a call's fields, its numbers, the share, its windows.
pub fn drill_cases()
    ensures { Hold (drill_cases ++ share_cases) × Hold window_cases }
{}

// The drill makes 1,024 calls and no more.
pub fn limit_of_calls()
    ensures { Limit }
{}

// Document 02, K7: the share is "to the nearest, an exact half to the even number", and no other number is.
pub fn share_nearest()
    ensures { ShareNearest × NearestFixed }
{}

// The share is that of at least one frame: a started drill has a frame excluded, and its output ends with the start's share.
pub fn some_excluded()
    ensures { SomeExcluded × ShareLast }
{}
