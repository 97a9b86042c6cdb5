// Demand 3: the functions that carry the claim about every list of calls, and the theorems beside it. The definitions stand in specs/.

#![tactic(auto)]

ghost use Rattle.claim.specs.Claim.{Claim};
ghost use Rattle.claim.specs.Committing.{CommittedKept, CommittedMissed};
ghost use Rattle.claim.specs.Consequences.{FetchReadsCode, WriteMissesPolicy, WriteAnswersFrames, TransferMissesPolicy, TransferInWindow};
ghost use Rattle.claim.specs.Consequences.{PageIsFold, ModeIsFold, LengthsKept, ExclusionIsFold, NumberIsSettled, RefusedKeepsTables};
ghost use Rattle.claim.specs.Installed.{Installed, InstalledMaps, InstalledWrites, InstalledRuns, SpareBitsZero};

// Demand 3: one claim about every list of calls after an accepted start.
pub fn every_list()
    ensures { Claim }
{}

// What follows from the claim alone, of the guard's own tables and answers: so that no weaker claim stands in its place.

// An allowed fetch answers its page's frame twice, and kernel mode fetches from frames that the policy names or the list has committed.
pub fn fetch_reads_code()
    ensures { FetchReadsCode }
{}

// An allowed write misses the policy's frames and memory beyond the last one, and answers the frames of its first and last byte.
pub fn write_covers()
    ensures { WriteMissesPolicy × WriteAnswersFrames }
{}

// An allowed transfer misses the policy's frames and memory beyond the last one, and stays in its device's window.
pub fn transfer_covers()
    ensures { TransferMissesPolicy × TransferInWindow }
{}

// Shadow entries, approvals, mode and exclusion vector are those of the one-page guards, each told its own news, and the tables keep their lengths.
pub fn tables_are_folds()
    ensures { PageIsFold × ModeIsFold × ExclusionIsFold × LengthsKept }
{}

// The number of an answer is the one that the one-page guards settle, and a refused call leaves the tables and the mode.
pub fn numbers_are_settled()
    ensures { NumberIsSettled × RefusedKeepsTables }
{}

// Document 02, K6: "No write or transfer allowed from its ask onward covers a byte of a committed frame."
pub fn committed_kept()
    ensures { CommittedKept × CommittedMissed }
{}

// What the shadow table lets a processor do after every list of calls: which frames its entries map, write to and execute. The exclusion vector's spare bits stay 0.
pub fn installed()
    ensures { Installed × InstalledMaps × InstalledWrites × InstalledRuns × SpareBitsZero }
{}
