//! Buffers in front of one another, so that room is taken without moving what is there.

ghost use Rattle.std.specs.Prelude.{◌≡◌, ◌≤◌, ◌<◌, ◌+◌, ◌^◌, ◌++◌, length, vec_len, vec_capacity};
ghost use Rattle.prost_reflect_wire.specs.Buffer.{joined};

use crate::buffer::BackBuffer;
use crate::error::EncodeError;
use std::alloc::{AllocError, Global};
use std::mem;

/// The least room of a further buffer.
const LEAST_ROOM: usize = 64;

/// The most room of a further buffer where no more is asked for at once.
const MOST_ROOM: usize = 65_536;

/// From so many bytes on, bytes for which no room is left are a buffer of their own.
const LARGE: usize = 4_096;

/// How many bytes a varint takes at most.
const LONGEST_VARINT: usize = 10;

/// Bytes to which more are added in front. A full buffer stays as it is, and a further one begins in front of it.
#[derive(Drop)]
pub(crate) struct Blocks {
    front: BackBuffer,
    behind: Vec<BackBuffer>,
    len_behind: usize,
    ghost counted: { len_behind ≡ length (joined behind.items) },
    ghost small: { len_behind < 2 ^ 63 },
}

impl Blocks {
    ghost use Rattle.std.specs.Prelude.{[], IsOk, OnOk, OnErr, IfErr};
    ghost use Rattle.prost_reflect_wire.specs.Varint.{short};
    ghost use Rattle.prost_reflect_wire.specs.Buffer.{bytes_of, Prepended};
    ghost use Rattle.prost_reflect_wire.specs.Blocks.{bytes_in};

    /// No bytes, and no memory taken.
    pub(crate) fn new(alloc: Global) -> Blocks
        ensures { bytes_in result ≡ [] }
    {
        Blocks {
            front: BackBuffer::new(alloc),
            behind: Vec::new(alloc),
            len_behind: 0,
        }
    }

    /// How many bytes were added.
    #[inline]
    pub(crate) fn len(&self) -> usize
        ensures { result ≡ length (bytes_in self.now) }
    {
        self.len_behind + self.front.len()
    }

    /// Puts the bytes of a buffer in front, and adds to that one from then on.
    fn put(&mut self, next: BackBuffer) -> Result<(), EncodeError>
        ensures ok { OnOk result (bytes_in self.new ≡ bytes_of next ++ bytes_in self.old) }
        ensures refused { IfErr result (λ e. e ≡ EncodeError.OutOfMemory) }
    {
        let len = self.len();
        if 0x7fff_ffff_ffff_ffff < len {
            return Err(EncodeError::OutOfMemory);
        }
        let full = mem::replace(&mut self.front, next);
        if full.len() == 0 {
            return Ok(());
        }
        match self.behind.push(full) {
            Ok(()) => {
                self.len_behind = len;
                Ok(())
            }
            Err(_) => Err(EncodeError::OutOfMemory),
        }
    }

    /// Begins a buffer with room for so many bytes, as large as what is there within limits.
    #[cold]
    #[inline(never)]
    fn begin(&mut self, additional: usize) -> Result<(), EncodeError>
        ensures ok { OnOk result (bytes_in self.new ≡ bytes_in self.old) }
        ensures refused { IfErr result (λ e. e ≡ EncodeError.OutOfMemory) }
    {
        let room = self.len().min(MOST_ROOM).max(LEAST_ROOM).max(additional);
        match BackBuffer::with_capacity(self.front.allocator(), room) {
            Ok(next) => self.put(next),
            Err(_) => Err(EncodeError::OutOfMemory),
        }
    }

    /// Adds bytes in front for which no room is left.
    #[cold]
    #[inline(never)]
    fn prepend_apart(&mut self, front: &[u8]) -> Result<(), EncodeError>
        ensures { Prepended result (bytes_in self.old) (bytes_in self.new) front.now }
    {
        if front.len() < LARGE {
            self.begin(front.len())?;
            return self.front.prepend(front);
        }
        match BackBuffer::from_slice(self.front.allocator(), front) {
            Ok(next) => self.put(next),
            Err(_) => Err(EncodeError::OutOfMemory),
        }
    }

    /// Adds the bytes in front.
    ///
    /// # Errors
    ///
    /// `TooLong` if the whole passes the greatest `usize`, `OutOfMemory` if memory runs out.
    #[inline]
    pub(crate) fn prepend(&mut self, front: &[u8]) -> Result<(), EncodeError>
        ensures { Prepended result (bytes_in self.old) (bytes_in self.new) front.now }
    {
        if self.front.room() < front.len() {
            return self.prepend_apart(front);
        }
        self.front.prepend(front)
    }

    /// Adds the shortest varint of the value in front.
    ///
    /// # Errors
    ///
    /// As `prepend`.
    #[inline]
    pub(crate) fn prepend_varint(&mut self, value: u64) -> Result<(), EncodeError>
        ensures { Prepended result (bytes_in self.old) (bytes_in self.new) (short value) }
    {
        if self.front.room() < LONGEST_VARINT {
            self.begin(LONGEST_VARINT)?;
        }
        self.front.prepend_varint(value)
    }

    /// Appends the bytes to an output that has room for them, block by block.
    fn append_within(&self, out: &mut Vec<u8>)
        requires { vec_len out.old + length (bytes_in self.now) ≤ vec_capacity out.old }
        ensures { out.new.items ≡ out.old.items ++ bytes_in self.now }
    {
        append_slice(out, self.front.as_slice());
        for index in (0..self.behind.len()).rev() {
            append_slice(out, self.behind[index].as_slice());
        }
    }

    /// Appends the bytes to the output. Where its room is too small for them, it grows once, before any is written.
    ///
    /// # Errors
    ///
    /// `AllocError` if out of memory; the output stays.
    pub(crate) fn append_to(&self, out: &mut Vec<u8>) -> Result<(), AllocError>
        ensures ok { OnOk result (out.new.items ≡ out.old.items ++ bytes_in self.now) }
        ensures err { OnErr result (out.new.items ≡ out.old.items) }
        ensures succeeds { vec_len out.old + length (bytes_in self.now) ≤ vec_capacity out.old → IsOk result }
    {
        out.reserve(self.len())?;
        self.append_within(out);
        Ok(())
    }
}

/// Appends the bytes to an output that has room for them.
fn append_slice(out: &mut Vec<u8>, bytes: &[u8])
    requires { vec_len out.old + length bytes.now ≤ vec_capacity out.old }
    ensures items { out.new.items ≡ out.old.items ++ bytes.now }
    ensures capacity { vec_capacity out.old ≤ vec_capacity out.new }
{
    let _appended = out.extend_from_slice(bytes);
}
