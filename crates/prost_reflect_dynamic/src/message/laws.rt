//! A law of messages: the function only looks at the message, and its contract is a law, which a function that calls it may
//! use.

ghost use Rattle.prost_reflect_dynamic.specs.Access.{HasOneField, HasOneMember};

use crate::message::DynamicMessage;

/// Of the members of a oneof a message has one at most, whatever was done with it; so of two fields of its own type whose oneof
/// is one, it lacks the second where it has the first.
pub fn one_member(message: &DynamicMessage)
    ensures members { HasOneMember message.now }
    ensures fields { HasOneField message.now }
{
    let _ = message.slots();
}
