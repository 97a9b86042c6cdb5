// The functions that carry the theorems about every entry, tree and list of devices. Their statements stand in specs/, the laws about the
// definitions of model in proofs/.

#![tactic(auto)]

ghost use Rattle.laws.specs.Cache.{ApartYields, OrdinaryCarries, StepCarries, StepWrites, SwitchKeeps};
ghost use Rattle.laws.specs.Trees.{ReadsWithin, TreeAsFlat, TreeRefused};
ghost use Rattle.laws.specs.Windows.{WindowsIndependent, DevicesKept};

// Document 02, K3: an entry taken apart yields the cache bits, "an ordinary shadow entry carries them", an approved entry does not, and a mode
// switch keeps them.
pub fn cache_bits()
    ensures { ApartYields × OrdinaryCarries × StepCarries × StepWrites × SwitchKeeps }
{}

// Document 02, K4: "the count of entries read, never above the depth".
pub fn reads_within_depth()
    ensures { ReadsWithin }
{}

// Document 02, K4: "synchronising from a tree equals doing so from the flat table of its walks", or "it refuses with 17, after question 7".
pub fn tree_as_flat()
    ensures { TreeAsFlat × TreeRefused }
{}

// Document 02, K5: "Changing one device's window changes no answer given to another", and no call changes the number of devices.
pub fn windows_independent()
    ensures { WindowsIndependent × DevicesKept }
{}
