// The rules of the office's calls, and what they make true of every run of calls.
//
// Job: the model. specs/Office and specs/Rules say which refusals fit a call, in their order, and what an
// accepted call answers and leaves; specs/History to specs/Laying say what calls and answers tell of holds,
// copies, sides and writes; specs/Round states the laws of a round. The functions below do nothing: their
// contracts name the theorems.
// May use: tables and modes, of which it uses the definitions alone.
// Main promise: at each close of a round the image is what the writes of exactly the Before sessions make of
// the opening table, and the sessions could have been carried out one after another, the Before ones first.

#![tactic(auto)]

ghost use Rattle.rules.specs.Examples.{AllRight, examples};
ghost use Rattle.rules.specs.Round.{EachCallExtends, EveryListRuns, RoundsLawful, TablesLawful};

// At each accepted close of every run the round was open, and the image law and the serial law hold of it.
pub fn rounds_lawful()
    ensures { RoundsLawful }
{}

// In every run the live table stays lawful, and the image too, if it was.
pub fn tables_lawful()
    ensures { TablesLawful }
{}

// Every list of calls has a run.
pub fn every_list_runs()
    ensures { EveryListRuns }
{}

// A call that keeps to its rule makes each run before it one call longer, and the law holds of the longer run.
pub fn each_call_extends()
    ensures { EachCallExtends }
{}

// The worked examples are as the rules say.
pub fn examples_right()
    ensures { AllRight examples }
{}
