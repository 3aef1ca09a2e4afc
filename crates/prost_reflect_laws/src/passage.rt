//! What is proved of reduction: each function has no body, and its contract is a law.

ghost use Rattle.prost_reflect_laws.specs.Passage.{EditPassage};
ghost use Rattle.prost_reflect_laws.specs.Reducing.{ReducedIsTest};
ghost use Rattle.prost_reflect_laws.specs.ReducingExamples.{WorkedReductions};
ghost use Rattle.prost_reflect_laws.specs.Examples.Passages.{Passages, EditPassages, Tested, FailedPassages, ExtensionAgainstField};

/// A value that is set at a path through a reduction is set there in what the newer type reads.
pub fn edit_passage()
    ensures { EditPassage }
{}

/// Whether a type is a reduction of another, as a relation and as a test.
pub fn reduced_is_test()
    ensures { ReducedIsTest }
{}

/// The worked examples of the test hold.
pub fn worked_reductions()
    ensures { WorkedReductions }
{}

/// The worked examples of what passes through a reduction, and of what does not without one, hold.
pub fn worked_passages()
    ensures passages { Passages }
    ensures edit_passages { EditPassages }
    ensures tested { Tested }
    ensures failed_passages { FailedPassages }
    ensures extension_against_field { ExtensionAgainstField }
{}
