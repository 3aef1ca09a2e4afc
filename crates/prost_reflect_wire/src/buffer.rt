//! A buffer that is filled from its back, so that a length is written once what it counts is there.

ghost use Rattle.std.specs.Prelude.{◌≤◌, length};

use crate::error::EncodeError;
use crate::key::{FieldNumber, WireType, key_value};
use std::alloc::{AllocError, Global};

/// The least room that a growth gives.
const LEAST_CAPACITY: usize = 64;

/// Bytes to which more are added in front.
#[derive(Drop)]
pub struct BackBuffer {
    bytes: Vec<u8>,
    start: usize,
    ghost within: { start ≤ length bytes.items },
}

impl BackBuffer {
    ghost use Rattle.std.specs.Prelude.{◌≡◌, ◌+◌, ◌*◌, ◌<◌, ◌^◌, ◌++◌, [], true, OnOk, OnErr, IfOk, IfErr};
    ghost use Rattle.prost_reflect_wire.specs.Varint.{are_bytes, short};
    ghost use Rattle.prost_reflect_wire.specs.Record.{short_key};
    ghost use Rattle.prost_reflect_wire.specs.Buffer.{bytes_of, Prepended};

    /// No bytes, and no memory taken.
    pub fn new(alloc: Global) -> BackBuffer
        ensures { bytes_of result ≡ [] }
    {
        BackBuffer {
            bytes: Vec::new(alloc),
            start: 0,
        }
    }

    /// No bytes, and room for so many.
    ///
    /// # Errors
    ///
    /// `AllocError` if out of memory.
    pub(crate) fn with_capacity(alloc: Global, capacity: usize) -> Result<BackBuffer, AllocError>
        ensures { IfOk result (λ buffer. bytes_of buffer ≡ []) }
    {
        Ok(BackBuffer {
            bytes: Vec::from_elem(alloc, 0, capacity)?,
            start: capacity,
        })
    }

    /// These bytes, and no room for more.
    ///
    /// # Errors
    ///
    /// `AllocError` if out of memory.
    pub(crate) fn from_slice(alloc: Global, bytes: &[u8]) -> Result<BackBuffer, AllocError>
        ensures { IfOk result (λ buffer. bytes_of buffer ≡ bytes.now) }
    {
        Ok(BackBuffer {
            bytes: Vec::from_slice(alloc, bytes)?,
            start: 0,
        })
    }

    /// The bytes, those added last first.
    pub fn as_slice(&self) -> &[u8]
        ensures { result.now ≡ bytes_of self.now }
    {
        &self.bytes[self.start..]
    }

    /// What the bytes are stored with.
    pub(crate) fn allocator(&self) -> Global {
        *self.bytes.allocator()
    }

    /// How many bytes can be added before the buffer grows.
    #[inline]
    pub(crate) fn room(&self) -> usize {
        self.start
    }

    /// How many bytes were added.
    #[inline]
    pub fn len(&self) -> usize
        ensures { result ≡ length (bytes_of self.now) }
    {
        self.bytes.len() - self.start
    }

    /// Makes room for so many bytes in front, at least doubling what is there.
    #[cold]
    #[inline(never)]
    fn reserve(&mut self, additional: usize) -> Result<(), EncodeError>
        ensures same { bytes_of self.new ≡ bytes_of self.old }
        ensures ok { OnOk result (additional ≤ self.new.start) }
        ensures too_long { IfErr result (λ e. e ≡ EncodeError.TooLong → 2 ^ 64 ≤ additional + length (bytes_of self.old)) }
    {
        let used = self.len();
        let Some(needed) = used.checked_add(additional) else {
            return Err(EncodeError::TooLong);
        };
        let doubled = (2 * self.bytes.len()).max(LEAST_CAPACITY);
        let size = needed.max(doubled);
        let mut grown = Vec::from_elem(*self.bytes.allocator(), 0, size)?;
        let start = size - used;
        grown[start..].copy_from_slice(self.as_slice());
        self.bytes = grown;
        self.start = start;
        Ok(())
    }

    /// Adds the bytes in front.
    ///
    /// # Errors
    ///
    /// `TooLong` if the whole passes the greatest `usize`, `OutOfMemory` if memory runs out; the buffer stays.
    #[inline]
    pub fn prepend(&mut self, front: &[u8]) -> Result<(), EncodeError>
        ensures ok { Prepended result (bytes_of self.old) (bytes_of self.new) front.now }
        ensures bytes { are_bytes front.now ≡ true }
        ensures err { OnErr result (bytes_of self.new ≡ bytes_of self.old) }
    {
        if self.start < front.len() {
            self.reserve(front.len())?;
        }
        let start = self.start - front.len();
        self.bytes[start..self.start].copy_from_slice(front);
        self.start = start;
        Ok(())
    }

    /// Adds the shortest varint of the value in front.
    ///
    /// # Errors
    ///
    /// As `prepend`.
    #[inline]
    pub fn prepend_varint(&mut self, value: u64) -> Result<(), EncodeError>
        ensures ok { Prepended result (bytes_of self.old) (bytes_of self.new) (short value) }
        ensures err { OnErr result (bytes_of self.new ≡ bytes_of self.old) }
    {
        if value < 0x80 {
            return self.prepend(&[value as u8]);
        }
        if value < 0x4000 {
            return self.prepend(&[(0x80 + value % 0x80) as u8, (value / 0x80) as u8]);
        }
        self.prepend_digits(value)
    }

    /// Adds a varint in front, digit by digit, the last one first.
    fn prepend_digits(&mut self, value: u64) -> Result<(), EncodeError>
        ensures ok { Prepended result (bytes_of self.old) (bytes_of self.new) (short value) }
        ensures err { OnErr result (bytes_of self.new ≡ bytes_of self.old) }
    {
        let mut digits = [0u8; 10];
        let mut len = 0;
        let mut rest = value;
        while rest >= 0x80 {
            digits[len] = (0x80 + rest % 0x80) as u8;
            rest /= 0x80;
            len += 1;
        }
        digits[len] = rest as u8;
        self.prepend(&digits[..=len])
    }

    /// Adds a key in front.
    ///
    /// # Errors
    ///
    /// As `prepend`.
    pub fn prepend_key(
        &mut self,
        number: FieldNumber,
        wire_type: WireType,
    ) -> Result<(), EncodeError>
        ensures ok { Prepended result (bytes_of self.old) (bytes_of self.new) (short_key number.value wire_type) }
        ensures err { OnErr result (bytes_of self.new ≡ bytes_of self.old) }
    {
        self.prepend_varint(key_value(number.get(), wire_type))
    }

    /// Appends the bytes to the output, which grows at most once.
    ///
    /// # Errors
    ///
    /// `AllocError` if out of memory; the output stays.
    pub fn append_to(&self, out: &mut Vec<u8>) -> Result<(), AllocError>
        ensures ok { OnOk result (out.new.items ≡ out.old.items ++ bytes_of self.now) }
        ensures err { OnErr result (out.new.items ≡ out.old.items) }
    {
        out.extend_from_slice(self.as_slice())
    }
}
