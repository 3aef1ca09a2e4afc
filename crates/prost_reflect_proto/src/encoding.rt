//! Encoding the descriptor records: fields in ascending number, those alone that are there, lists not packed (the encoding
//! guide, "Message Structure" and "Packed Repeated Fields").

ghost use Rattle.std.specs.Prelude.{◌≡◌, ◌≤◌, ◌^◌, ◌++◌, length, Some, OnOk, OnErr, IfErr};
ghost use Rattle.prost_reflect_wire.specs.Writing.{encoded};
ghost use Rattle.prost_reflect_wire.specs.Levels.{levels};
ghost use Rattle.prost_reflect_wire.specs.Grammar.{LEVEL_LIMIT};
ghost use Rattle.prost_reflect_types.specs.DescriptorMeaning.{record_decoded};

use crate::proto::WriteProto;
use prost_reflect_wire::{ByteSink, EncodeError};

/// Appends the encoding of the record.
pub fn append<P: WriteProto>(value: &P, out: &mut Vec<u8>) -> Result<(), EncodeError>
    ensures ok { OnOk result (out.new.items ≡ out.old.items ++ encoded (P.content value.now)) }
    ensures err { OnErr result (out.new.items ≡ out.old.items) }
    ensures too_long { IfErr result (λ e. e ≡ EncodeError.TooLong → 2 ^ 64 ≤ length (encoded (P.content value.now))) }
    ensures reads { OnOk result
        (levels (P.content value.now) ≤ LEVEL_LIMIT
        → record_decoded LEVEL_LIMIT P.record_type (encoded (P.content value.now)) ≡ Some (P.content value.now)) }
{
    let mut sink = ByteSink::new(*out.allocator());
    value.write(&mut sink);
    sink.append_to(out)
}
