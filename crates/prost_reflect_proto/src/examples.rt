//! The worked examples of the records of a descriptor set.

ghost use Rattle.prost_reflect_proto.specs.DescriptorExamples.{Descriptors};

/// The worked examples of the records of a descriptor set hold.
pub fn worked_descriptors()
    ensures { Descriptors }
{}
