//! What is proved of the tables: each function has no body, and its contract is a law.

ghost use Rattle.std.specs.Prelude.{◌↔◌, IsTrue, List};
ghost use Rattle.std.specs.Cmp.Lexicographic.{pointwise};
ghost use Rattle.prost_reflect_types.specs.declared.FileDescriptorProto.{FileDescriptorProto};
ghost use Rattle.prost_reflect_tables.specs.FileLaws.{SameContents, EqualTables, EqualChecks, EqualRefusals};

use prost_reflect_types::FileDescriptorProto;

/// Lists of files are equal by `==` exactly if both have as many files, and their contents are equal one by one.
pub fn files_equality()
    ensures { (a : List FileDescriptorProto) (b : List FileDescriptorProto)
        → IsTrue (pointwise (⟦<FileDescriptorProto as PartialEq>⟧.eq) a b) ↔ SameContents a b }
{}

/// Files whose contents are equal, one by one, give equal tables, pass the same checks, and are refused for the same reasons,
/// wherever their records lie in memory.
pub fn equal_files()
    ensures tables { EqualTables }
    ensures checks { EqualChecks }
    ensures refusals { EqualRefusals }
{}
