//! What is written to from the last byte on: bytes, or a count of them.

ghost use Rattle.std.specs.Prelude.{◌≡◌, ◌++◌, true, ℕ, List, [], length};
ghost use Rattle.prost_reflect_wire.specs.Varint.{are_bytes, short};
ghost use Rattle.prost_reflect_wire.specs.Record.{short_key};
ghost use Rattle.prost_reflect_wire.specs.Sinks.{Adds};

use crate::blocks::Blocks;
use crate::error::EncodeError;
use crate::key::{WireType, key_value};
use crate::varint::varint_len;
use std::alloc::Global;

/// Takes bytes in front of those that it has. Once it refused some, it passes over the rest.
pub trait Sink {
    ghost added: { Self → Self → List ℕ → Type 0 };

    ghost held: { Self → ℕ };

    /// How many bytes it has; any number once it refused some.
    fn len(&self) -> usize
        ensures value { result ≡ held self.now }
        ensures nothing { added self.now self.now [] };

    /// Adds the bytes in front.
    fn prepend(&mut self, front: &[u8])
        ensures added { Adds added self.old self.new front.now }
        ensures bytes { are_bytes front.now ≡ true };

    /// Adds the shortest varint of the value in front.
    fn prepend_varint(&mut self, value: u64)
        ensures { Adds added self.old self.new (short value) };

    /// Adds in front the length of what was added since it had so many bytes.
    fn prepend_len_since(&mut self, before: usize)
        ensures { (start mid : Self) (done body : List ℕ) → added start mid done → held mid ≡ before
            → added mid self.old body
            → added start self.new (short (length body) ++ (body ++ done)) };
}

/// Bytes from the last on, and whether all of them were taken.
#[derive(Drop)]
pub struct ByteSink {
    pub(crate) blocks: Blocks,
    pub(crate) outcome: Result<(), EncodeError>,
}

/// How many bytes were added; `None` once they are more than a `usize` counts.
#[derive(Drop)]
pub struct LengthSink {
    pub(crate) count: Option<usize>,
}

/// Adds the key of the number and the wire type in front.
pub fn write_key<S: Sink>(sink: &mut S, number: u32, wire_type: WireType)
    ensures { Adds S.added sink.old sink.new (short_key number wire_type) }
{
    sink.prepend_varint(key_value(number, wire_type));
}

impl ByteSink {
    ghost use Rattle.std.specs.Prelude.{◌≤◌, ◌<◌, ◌^◌, Ok, OnOk, OnErr, IfErr};
    ghost use Rattle.prost_reflect_wire.specs.Sinks.{HasNoBytes, written_since};

    /// No bytes yet.
    pub fn new(alloc: Global) -> ByteSink
        ensures { HasNoBytes result }
    {
        ByteSink {
            blocks: Blocks::new(alloc),
            outcome: Ok(()),
        }
    }

    /// Appends the bytes to the output, which grows at most once.
    ///
    /// # Errors
    ///
    /// `TooLong` if the bytes are more than the greatest `usize`, `OutOfMemory` if memory runs out; the output stays.
    pub fn append_to(self, out: &mut Vec<u8>) -> Result<(), EncodeError>
        ensures ok { OnOk result
            ((start : ByteSink) (front : List ℕ) → HasNoBytes start → Adds written_since start self front
            → out.new.items ≡ out.old.items ++ front) }
        ensures fits { OnOk result
            ((start : ByteSink) (front : List ℕ) → HasNoBytes start → Adds written_since start self front
            → length front < 2 ^ 64) }
        ensures err { OnErr result (out.new.items ≡ out.old.items) }
        ensures too_long { IfErr result
            (λ e. e ≡ EncodeError.TooLong → (start : ByteSink) (front : List ℕ) → HasNoBytes start
            → Adds written_since start self front
            → 2 ^ 64 ≤ length front) }
    {
        self.outcome?;
        self.blocks.append_to(out)?;
        Ok(())
    }
}

impl LengthSink {
    ghost use Rattle.std.specs.Prelude.{◌<◌, ◌^◌};
    ghost use Rattle.std.specs.Option.{SomeIff};
    ghost use Rattle.prost_reflect_wire.specs.Sinks.{counted_since, HasNoCount};

    /// No bytes yet.
    pub fn new() -> LengthSink
        ensures { HasNoCount result }
    {
        LengthSink { count: Some(0) }
    }

    /// How many bytes were added; `None` if they are more than a `usize` counts.
    pub fn total(self) -> Option<usize>
        ensures { (start : LengthSink) (front : List ℕ) → HasNoCount start → Adds counted_since start self front
            → SomeIff result (length front < 2 ^ 64) (length front) }
    {
        self.count
    }
}

impl Sink for ByteSink {
    ghost use Rattle.prost_reflect_wire.specs.Blocks.{bytes_in};
    ghost use Rattle.prost_reflect_wire.specs.Sinks.{written_since};

    ghost added = { written_since };

    ghost held = { λ w. length (bytes_in w.blocks) };

    #[inline]
    fn len(&self) -> usize {
        self.blocks.len()
    }

    #[inline]
    fn prepend(&mut self, front: &[u8]) {
        if self.outcome.is_ok() {
            self.outcome = self.blocks.prepend(front);
        }
    }

    #[inline]
    fn prepend_varint(&mut self, value: u64) {
        if self.outcome.is_ok() {
            self.outcome = self.blocks.prepend_varint(value);
        }
    }

    #[inline]
    fn prepend_len_since(&mut self, before: usize) {
        let len = self.blocks.len().saturating_sub(before);
        self.prepend_varint(len as u64);
    }
}

impl Sink for LengthSink {
    ghost use Rattle.std.specs.Prelude.{unwrap_or};
    ghost use Rattle.prost_reflect_wire.specs.Sinks.{counted_since};

    ghost added = { counted_since };

    ghost held = { λ c. unwrap_or c.count 0 };

    fn len(&self) -> usize {
        self.count.unwrap_or(0)
    }

    fn prepend(&mut self, front: &[u8]) {
        if let Some(count) = self.count {
            self.count = count.checked_add(front.len());
        }
    }

    fn prepend_varint(&mut self, value: u64) {
        if let Some(count) = self.count {
            self.count = count.checked_add(varint_len(value));
        }
    }

    fn prepend_len_since(&mut self, before: usize) {
        let len = self.len().saturating_sub(before);
        self.prepend_varint(len as u64);
    }
}
