//! The members of oneofs.

ghost use Rattle.prost_reflect_pool.specs.MessageTypes.{fields_of};
ghost use Rattle.prost_reflect_fields.specs.Members.{HasMembers};

use prost_reflect_pool::PooledType;

/// The places of the members of a oneof among the fields of the message type. A field without a oneof has none.
pub(crate) fn member_places(message_type: &PooledType, oneof: Option<usize>) -> &[usize]
    ensures { HasMembers (fields_of message_type.now) oneof result.now }
{
    let Some(oneof) = oneof else {
        return &[];
    };
    let table = message_type.pool().message_table(message_type.index());
    match table.oneofs.get(oneof) {
        Some(oneof) => oneof.fields.as_slice(),
        None => &[],
    }
}
