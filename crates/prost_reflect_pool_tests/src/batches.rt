//! The files of a descriptor set, in batches that their dependencies allow.

use crate::many::append;
use prost_reflect::{FileDescriptorProto, FileDescriptorSet, Proto};
use prost_reflect_samples::leaked;
use std::alloc::{AllocError, Global};
use std::test::Fail;

/// Numbers that are hard to foresee, and the same in each run.
#[derive(Clone, Copy)]
pub(crate) struct Dice {
    state: u64,
}

impl Dice {
    /// Those that begin with a number.
    pub(crate) fn new(seed: u64) -> Dice {
        Dice {
            state: seed.wrapping_add(20_261_130),
        }
    }

    /// 32 bits.
    pub(crate) fn bits(&mut self) -> u32 {
        self.state = self
            .state
            .wrapping_mul(6_364_136_223_846_793_005)
            .wrapping_add(1_442_695_040_888_963_407);
        (self.state >> 32) as u32
    }

    /// Whether it is so, which is as likely as not.
    pub(crate) fn flag(&mut self) -> bool {
        self.bits() >> 20 & 1 == 1
    }
}

/// The bit of a place, of 32.
pub(crate) fn bit(place: usize) -> u32 {
    1 << (place % 32)
}

/// Files, at most 32, and of each which ones it depends on, a bit for each.
#[derive(Drop)]
pub(crate) struct Files {
    pub(crate) records: Vec<&'static [u8]>,
    needs: Vec<u32>,
}

/// Whether the file depends on the other one.
fn depends_on(file: &FileDescriptorProto, other: &FileDescriptorProto) -> bool {
    let Some(other_name) = &other.name else {
        return false;
    };
    for name in &file.dependency {
        if *name == *other_name {
            return true;
        }
    }
    false
}

/// A bit for each of the files that the file depends on.
fn needs_of(files: &[FileDescriptorProto], file: &FileDescriptorProto) -> u32 {
    let mut needs = 0;
    for (place, other) in files.iter().enumerate() {
        if depends_on(file, other) {
            needs |= bit(place);
        }
    }
    needs
}

/// The files of a set.
pub(crate) fn files_of(alloc: Global, set: &[u8]) -> Result<&'static Files, Fail> {
    let set: &'static FileDescriptorSet = leaked(alloc, FileDescriptorSet::decode(alloc, set)?)?;
    let records = Vec::new(alloc);
    let needs = Vec::new(alloc);
    let files = leaked(alloc, Files { records, needs })?;
    for file in &set.file {
        let record = leaked(alloc, Vec::new(alloc))?;
        file.encode(record)?;
        files.records.push(record.as_slice())?;
        files.needs.push(needs_of(set.file.as_slice(), file))?;
    }
    Ok(files)
}

impl Files {
    /// A bit for each file.
    pub(crate) fn all(&self) -> u32 {
        let mut all = 0;
        for place in 0..self.records.len() {
            all |= bit(place);
        }
        all
    }

    /// Files with all that they depend on.
    fn with_needs(&self, some: u32) -> u32 {
        let mut all = some;
        for _ in 0..self.needs.len() {
            for (place, needs) in self.needs.iter().enumerate() {
                if all & bit(place) != 0 {
                    all |= *needs;
                }
            }
        }
        all
    }

    /// Some files that are not there, or the first of these, with all that they depend on and that is not there.
    pub(crate) fn next(&self, there: u32, dice: &mut Dice) -> u32 {
        let missing = self.all() & !there;
        let some = missing & dice.bits() & dice.bits();
        let first = missing & missing.wrapping_neg();
        self.with_needs(if some == 0 { first } else { some }) & !there
    }

    /// The files of a batch as a set, from the first to the last or from the last to the first.
    pub(crate) fn set_of(
        &self,
        alloc: Global,
        batch: u32,
        is_turned: bool,
    ) -> Result<&'static Vec<u8>, AllocError> {
        let set = leaked(alloc, Vec::new(alloc))?;
        let count = self.records.len();
        for step in 0..count {
            let place = if is_turned { count - 1 - step } else { step };
            if batch & bit(place) != 0 {
                append(set, 0x0a, self.records[place])?;
            }
        }
        Ok(set)
    }
}
