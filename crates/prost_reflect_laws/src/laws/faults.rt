//! What is proved of faults.

ghost use Rattle.prost_reflect_laws.specs.LawsOfFaults.{AcceptedHasNoFault, AcceptedUnlessFault, MemoryNeverStands, AcceptedOnlyMemory};

/// Bytes that are accepted have no fault.
pub fn accepted_has_no_fault()
    ensures { AcceptedHasNoFault }
{}

/// Bytes are accepted unless they have a fault.
pub fn accepted_unless_fault()
    ensures { AcceptedUnlessFault }
{}

/// Being out of memory is a fault of no bytes.
pub fn memory_never_stands()
    ensures { MemoryNeverStands }
{}

/// Accepted bytes are refused only out of memory, if each other refusal names a fault that the bytes have.
pub fn accepted_only_memory()
    ensures { AcceptedOnlyMemory }
{}
