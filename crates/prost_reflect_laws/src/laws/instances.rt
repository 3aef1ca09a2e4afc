//! The laws are not empty, and their neighbours do not hold.

ghost use Rattle.prost_reflect_laws.specs.Examples.Instances.{OfReading, OfMeaning, OfContents, OfWriting, OfFaults};
ghost use Rattle.prost_reflect_laws.specs.Examples.ReadBack.{OfReadingBack};
ghost use Rattle.prost_reflect_laws.specs.Examples.PremisesOfPassage.{OfPassages, OfFields};
ghost use Rattle.prost_reflect_laws.specs.Examples.NearbyMeaning.{NotOfMeaning, NotOfWriting};
ghost use Rattle.prost_reflect_laws.specs.Examples.NearbyReading.{NotOfRecords, NotOfScalars};
ghost use Rattle.prost_reflect_laws.specs.Examples.NearbyTyping.{NotOfTyping, NotOfContents};
ghost use Rattle.prost_reflect_laws.specs.Examples.NearbyBack.{NotOfReadingBack};
ghost use Rattle.prost_reflect_laws.specs.Examples.NearbyFaults.{NotOfFaults, NotOfFields};
ghost use Rattle.prost_reflect_laws.specs.Examples.NearbyPassage.{NotOfPassages};

/// The premises of each law hold at a worked example.
pub fn worked_instances()
    ensures reading { OfReading }
    ensures meaning { OfMeaning }
    ensures contents { OfContents }
    ensures writing { OfWriting }
    ensures faults { OfFaults }
    ensures reading_back { OfReadingBack }
    ensures passages { OfPassages }
    ensures fields { OfFields }
{}

/// Statements near the laws are refuted by worked examples.
pub fn nearby_false()
    ensures records { NotOfRecords }
    ensures scalars { NotOfScalars }
    ensures meaning { NotOfMeaning }
    ensures typing { NotOfTyping }
    ensures contents { NotOfContents }
    ensures writing { NotOfWriting }
    ensures reading_back { NotOfReadingBack }
    ensures faults { NotOfFaults }
    ensures fields { NotOfFields }
    ensures passages { NotOfPassages }
{}
