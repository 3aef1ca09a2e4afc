//! Why and where a message type does not accept bytes.

use crate::descriptor::MessageDescriptor;
use prost_reflect_faults::{DecodeFault, decode_fault};

impl MessageDescriptor {
    ghost use Rattle.std.specs.Prelude.{◌≡◌, ◌↔◌, Some, IsTrue};
    ghost use Rattle.std.specs.Option.{is_none};
    ghost use Rattle.prost_reflect_wire.specs.Grammar.{LEVEL_LIMIT, Accepts};
    ghost use Rattle.prost_reflect_faults.specs.Positions.{StandsAt, message_place};
    ghost use Rattle.prost_reflect_faults.specs.declared.fault.DecodeFault.{DecodeFault};
    ghost use Rattle.prost_reflect_dynamic.specs.Named.{schema_named, type_named};

    /// Why and where the message type does not accept the bytes, or `None` exactly where it accepts them, so that
    /// `DynamicMessage::decode` refuses them for want of memory alone.
    ///
    /// The fault is the first that is found in the order of the bytes. It stands so many bytes behind their beginning, inside of
    /// the fields whose numbers are its path. The search takes no memory, and one pass over the bytes.
    ///
    /// ```
    /// use prost_reflect::builtin_pool;
    /// use std::alloc::Global;
    /// use std::test::Fail;
    ///
    /// // The bytes end inside of the second record, so the text is `at 2: the input ends inside a record`.
    /// fn fault_text(alloc: Global) -> Result<String, Fail> {
    ///     let pool = builtin_pool(alloc)?;
    ///     let plain = pool.get_message_by_name("builtin.Plain")?.ok_or("no builtin.Plain")?;
    ///     let fault = plain.decode_fault(&[0x28, 7, 0x28]).ok_or("a message")?;
    ///     Ok(format!(in alloc; "{fault}")?)
    /// }
    /// ```
    pub fn decode_fault(&self, bytes: &[u8]) -> Option<DecodeFault>
        ensures none { Accepts (schema_named self.now) LEVEL_LIMIT (type_named self.now) bytes.now ↔ IsTrue (is_none result) }
        ensures stands { (fault : DecodeFault) → result ≡ Some fault
            → StandsAt (schema_named self.now) (message_place LEVEL_LIMIT (type_named self.now) bytes.now) fault.error
            fault.offset fault.path.items }
    {
        decode_fault(self.tables(), self.index(), bytes)
    }
}
