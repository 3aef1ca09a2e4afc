//! Merging bytes into messages (the encoding guide, "Last One Wins").

ghost use Rattle.std.specs.Prelude.{◌≡◌, ◌≢◌, true, [], IfOk, IfErr};
ghost use Rattle.prost_reflect_wire.specs.Grammar.{LEVEL_LIMIT, Accepts};
ghost use Rattle.prost_reflect_wire.specs.Typing.{kept, WellStored};
ghost use Rattle.prost_reflect_wire.specs.Fault.{StandsInMessage};
ghost use Rattle.prost_reflect_wire.specs.Content.{schema_of, type_of};
ghost use Rattle.prost_reflect_wire.specs.Decoding.{Holds, Progress};
ghost use Rattle.prost_reflect_pool.specs.MessageTypes.{schema_at, type_at, SameMessage};
ghost use Rattle.prost_reflect_dynamic.specs.Merged.{MergesMeaning};
ghost use Rattle.prost_reflect_dynamic.specs.View.{content_of, message_type_of};
ghost use Rattle.prost_reflect_dynamic.specs.DeepTypes.{all_typed};
ghost use Rattle.prost_reflect_dynamic.specs.Stored.{message_stored};
ghost use Rattle.prost_reflect_dynamic.specs.TypedSteps.{StaysTyped};

use crate::message::DynamicMessage;
use prost_reflect_rows::numbers::numbers_in;
use prost_reflect_wire::{DecodeError, RECURSION_LIMIT};

impl DynamicMessage {
    /// Reads the records of the bytes behind those of the message, in at most 100 levels of messages and groups.
    ///
    /// A scalar replaces the one that is there, a message or group is read into the one that is there, the elements of a
    /// list stand behind those that are there, and an entry of a map takes the place of the one with an equal key; the
    /// other members of a oneof go, and unknown fields stand behind those that are there (the encoding guide, "Last One
    /// Wins", "Oneofs", "Packed Repeated Fields" and "Maps"). So the message then holds what the records of its encoding
    /// before mean with those of the bytes behind them, and merging the pieces of a message one by one gives what all of
    /// them mean, read as one.
    ///
    /// The values of the message have to fit their fields, and the messages inside have to be of their fields' types, as in
    /// every message that `decode` gives: `is_encodable` and `is_typed` tell. The same then holds of the merged message, so
    /// no test is needed between two calls. Where there are no bytes, nothing changes.
    ///
    /// ```
    /// // The message that two pieces of its bytes mean, one behind the other.
    /// fn joined(
    ///     alloc: Global,
    ///     message_type: MessageDescriptor,
    ///     first: &[u8],
    ///     second: &[u8],
    /// ) -> Result<DynamicMessage, DecodeError> {
    ///     let mut message = DynamicMessage::decode(alloc, message_type, first)?;
    ///     message.merge(second)?;
    ///     Ok(message)
    /// }
    /// ```
    ///
    /// # Errors
    ///
    /// A fault that the bytes have (`Truncated`, `Varint`, `Key`, `WireType`, `EndGroup`, `Utf8` or `Depth`), and only if
    /// the type does not accept them; `OutOfMemory` if memory runs out. In each case the message stays as it was.
    pub fn merge(&mut self, bytes: &[u8]) -> Result<(), DecodeError>
        requires sound { WellStored (content_of self.old) }
        ensures merged { IfOk result
            (λ _. MergesMeaning (schema_at (message_type_of self.old)) (type_at (message_type_of self.old)) bytes.now
            (kept (content_of self.old)) (kept (content_of self.new))) }
        ensures holds { IfOk result (λ _. Holds (content_of self.old) (content_of self.new)) }
        ensures message_type { SameMessage (message_type_of self.old) (message_type_of self.new) }
        ensures fault { IfErr result
            (λ e. e ≢ DecodeError.OutOfMemory
            → StandsInMessage (schema_at (message_type_of self.old)) (type_at (message_type_of self.old))
            LEVEL_LIMIT e bytes.now) }
        ensures accepted { IfErr result
            (λ e. Accepts (schema_at (message_type_of self.old)) LEVEL_LIMIT (type_at (message_type_of self.old))
            bytes.now
            → e ≡ DecodeError.OutOfMemory) }
        ensures unchanged { IfErr result (λ _. self.new ≡ self.old) }
        ensures sound { WellStored (content_of self.new) }
        ensures typed { all_typed (message_stored self.old) ≡ true → all_typed (message_stored self.new) ≡ true }
    {
        self.read_behind(bytes)
    }

    /// Reads the records of the bytes behind those of the message: into itself where it stores nothing.
    fn read_behind(&mut self, bytes: &[u8]) -> Result<(), DecodeError>
        requires sound { WellStored (content_of self.old) }
        ensures ok { IfOk result (λ _. Progress LEVEL_LIMIT (content_of self.old) (content_of self.new) bytes.now []) }
        ensures message_type { SameMessage (message_type_of self.old) (message_type_of self.new) }
        ensures typed { IfOk result (λ _. StaysTyped self.old self.new) }
        ensures fault { IfErr result
            (λ e. e ≢ DecodeError.OutOfMemory
            → StandsInMessage (schema_of (content_of self.old)) (type_of (content_of self.old)) LEVEL_LIMIT e
            bytes.now) }
        ensures unchanged { IfErr result (λ _. self.new ≡ self.old) }
    {
        if !self.fields.is_empty() {
            return self.read_into_part(bytes);
        }
        let alloc = self.fields.allocator();
        match self.merge_records(alloc, bytes, RECURSION_LIMIT) {
            Ok(()) => Ok(()),
            Err(fault) => {
                self.fields.clear_all();
                Err(fault)
            }
        }
    }

    /// Reads the records of the bytes into a copy of what stands at their numbers, and puts that back.
    fn read_into_part(&mut self, bytes: &[u8]) -> Result<(), DecodeError>
        requires sound { WellStored (content_of self.old) }
        ensures ok { IfOk result (λ _. Progress LEVEL_LIMIT (content_of self.old) (content_of self.new) bytes.now []) }
        ensures message_type { SameMessage (message_type_of self.old) (message_type_of self.new) }
        ensures typed { IfOk result (λ _. StaysTyped self.old self.new) }
        ensures fault { IfErr result
            (λ e. e ≢ DecodeError.OutOfMemory
            → StandsInMessage (schema_of (content_of self.old)) (type_of (content_of self.old)) LEVEL_LIMIT e
            bytes.now) }
        ensures unchanged { IfErr result (λ _. self.new ≡ self.old) }
    {
        let alloc = self.fields.allocator();
        let numbers = numbers_in(alloc, self.message_type(), bytes)?;
        let mut part = self.clone_at(&numbers)?;
        part.merge_records(alloc, bytes, RECURSION_LIMIT)?;
        self.replace_at(&numbers, part)?;
        Ok(())
    }
}
