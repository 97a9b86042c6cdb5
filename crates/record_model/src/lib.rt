// The functions that carry the theorems about the record that a call writes (document 02, K2), whose definitions stand in specs/.

#![tactic(auto)]

ghost use Rattle.model.specs.Cases.{Hold};
ghost use Rattle.record_model.specs.Record.{WrittenStarts, WrittenAgain};
ghost use Rattle.record_model.specs.RecordCases.{record_cases};

// Document 02, K2: the records that a call writes and the policies that it refuses.
pub fn record_cases()
    ensures { Hold record_cases }
{}

// Document 02, K2: "a written record starts a guard with those pages and frames".
pub fn written_starts()
    ensures { WrittenStarts }
{}

// Document 02, K2: "an accepted record read and written again is the same bytes".
pub fn written_again()
    ensures { WrittenAgain }
{}
