// The functions that carry the theorems about the exported calls: what they return and leave on lent runs. The definitions stand in specs/.

#![tactic(auto)]

ghost use Rattle.model.specs.Cases.{Hold};
ghost use Rattle.boundary_model.specs.Boundary.{StateHeld};
ghost use Rattle.boundary_model.specs.ExportCases.{export_cases, walk_export_cases, call_export_cases, lent_export_cases, each_export_cases};
ghost use Rattle.boundary_model.specs.ExportedLists.{ExportedClaim, NumberReturned, RefusedLeaves};

// What writing a record and walking a page return and leave, by their numbers run; the words of a state run; each call on a state, accepted and refused.
pub fn export_cases()
    ensures { Hold export_cases × Hold walk_export_cases × Hold call_export_cases × Hold lent_export_cases × Hold each_export_cases }
{}

// The state goes from call to call in its run as the definitions hand it on.
pub fn state_held()
    ensures { StateHeld }
{}

// Demand 3 at the C boundary: after an accepted start, along every list of exported calls, what C lends holds the guard of the list.
pub fn exported_claim()
    ensures { ExportedClaim }
{}

// An exported call returns the guard's number, and 7 just where a run cannot be lent.
pub fn number_returned()
    ensures { NumberReturned }
{}

// A refused exported call leaves every run and table but its numbers run.
pub fn refused_leaves()
    ensures { RefusedLeaves }
{}
