//! The records of a pool's files.

ghost use Rattle.std.specs.Prelude.{◌≡◌};
ghost use Rattle.prost_reflect_types.specs.DescriptorViews.{shared_files};
ghost use Rattle.prost_reflect_pool.specs.PoolFiles.{files_left};
ghost use Rattle.prost_reflect_pool.specs.Pools.{files_of};

use crate::LinkedPool;
use prost_reflect_types::FileDescriptorProto;
use std::rc::Rc;

/// The records of a pool's files, in the order in which they were added.
#[derive(Drop)]
pub struct FileDescriptorProtos<'a> {
    /// The files whose records are still to come.
    pub(crate) files: &'a [Rc<FileDescriptorProto>],
}

impl<'a> Iterator for FileDescriptorProtos<'a> {
    type Item = &'a FileDescriptorProto;

    ghost use Rattle.std.specs.Prelude.{length};
    ghost use Rattle.std.specs.Iterator.{at_most};
    ghost use Rattle.prost_reflect_pool.specs.PoolFiles.{files_left, GivesFile};

    ghost next_gives = { GivesFile };

    ghost remaining = { λ it. at_most (length (files_left it)) };

    fn next(&mut self) -> Option<&'a FileDescriptorProto> {
        match self.files.split_first() {
            Some((file, rest)) => {
                self.files = rest;
                Some(file)
            }
            None => None,
        }
    }
}

impl<'a> ExactSizeIterator for FileDescriptorProtos<'a> {
    fn len(&self) -> usize {
        self.files.len()
    }
}

impl LinkedPool {
    /// The records of the files, in the order in which they were added.
    pub fn file_descriptor_protos(&self) -> FileDescriptorProtos<'_>
        ensures { files_left result ≡ files_of self.now }
    {
        FileDescriptorProtos {
            files: self.files.as_slice(),
        }
    }

    /// The files, in the order in which they were added.
    pub fn shared_files(&self) -> &[Rc<FileDescriptorProto>]
        ensures { shared_files result.now ≡ files_of self.now }
    {
        self.files.as_slice()
    }
}
