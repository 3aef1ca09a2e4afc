//! Laws of messages, of descriptors and of keys: each function changes nothing, and its contract is a law, which a function
//! that calls it may use.

ghost use Rattle.prost_reflect_dynamic.specs.ContentLaws.{ValueViews, MessageSlots, MessageOrder, SlotsAfterSet, SlotsAfterClear, SlotsAfterUnknown, SlotsDetermine, MapInsert};
ghost use Rattle.prost_reflect.specs.LawInstances.{OfContentLaws, OfKeptLaws, OfDepth};
ghost use Rattle.prost_reflect_dynamic.specs.KeptLaws.{MessageArranged, KeptAfterSet, KeptAfterClear, KeptAfterUnknown, KeptAfterClearAll, KeptAfterWriting};
ghost use Rattle.prost_reflect_dynamic.specs.Access.{HadContent, NameFound, NameMissing, NumberFound, NumberMissing, ShownContent, TakesFound};
ghost use Rattle.std.specs.Prelude.{◌≡◌, ◌<◌, ◌^◌, ◌↔◌, true, Some, length, IsTrue};
ghost use Rattle.prost_reflect_wire.specs.Content.{ScalarValue};
ghost use Rattle.prost_reflect_wire.specs.Scalar.{scalar_cmp, scalar_eq};
ghost use Rattle.prost_reflect_wire.specs.Typing.{kept, WellStored};
ghost use Rattle.prost_reflect_wire.specs.Writing.{encoded};
ghost use Rattle.prost_reflect_dynamic.specs.Named.{NamesSame};
ghost use Rattle.prost_reflect_dynamic.specs.View.{key_of, content_of, message_type_of};
ghost use Rattle.prost_reflect_dynamic.specs.Keys.{key_writes};
ghost use Rattle.prost_reflect_dynamic.specs.Variants.{key_in};
ghost use Rattle.prost_reflect_dynamic.specs.declared.descriptor.message.MessageDescriptor.{MessageDescriptor};
ghost use Rattle.prost_reflect_dynamic.specs.declared.message.DynamicMessage.{DynamicMessage};
ghost use Rattle.prost_reflect_dynamic.specs.declared.value.MapKey.{MapKey};

pub use prost_reflect_dynamic::{descriptor_equality, one_member};
use prost_reflect_dynamic::{MapKey, MessageDescriptor};
pub use prost_reflect_laws::laws::kept_well;
use std::hash::Hash;

/// What each variant of a value is in the definitions.
pub fn value_views()
    ensures { ValueViews }
{}

/// A message has at a number what it stores there.
pub fn message_slots()
    ensures { MessageSlots }
{}

/// The numbers of a message ascend.
pub fn message_order()
    ensures { MessageOrder }
{}

/// What each number has after a set.
pub fn slots_after_set()
    ensures { SlotsAfterSet }
{}

/// What each number has after a value is cleared.
pub fn slots_after_clear()
    ensures { SlotsAfterClear }
{}

/// What each number has after an unknown record was added.
pub fn slots_after_unknown()
    ensures { SlotsAfterUnknown }
{}

/// A call by number is the call by the field that the look-up of the number finds, if it finds one.
pub fn number_found()
    ensures found { NumberFound }
    ensures missing { NumberMissing }
{}

/// A call by name is the call by the field that the look-up of the name finds, if it finds one.
pub fn name_found()
    ensures found { NameFound }
    ensures missing { NameMissing }
{}

/// A field of the message's own type takes what the field of its number takes.
pub fn takes_found()
    ensures { TakesFound }
{}

/// A message has at a number, as it is stored, what its content has there.
pub fn had_content()
    ensures { HadContent }
{}

/// What is got of a field is the value of its content, or else the default.
pub fn shown_content()
    ensures { ShownContent }
{}

/// The content of a message is arranged.
pub fn message_arranged()
    ensures { MessageArranged }
{}

/// What is kept after a set is the definitions' set of what was kept.
pub fn kept_after_set()
    ensures { KeptAfterSet }
{}

/// Likewise where a value is cleared or taken.
pub fn kept_after_clear()
    ensures { KeptAfterClear }
{}

/// Likewise where an unknown record is added.
pub fn kept_after_unknown()
    ensures { KeptAfterUnknown }
{}

/// Likewise where the whole message is cleared.
pub fn kept_after_clear_all()
    ensures { KeptAfterClearAll }
{}

/// Likewise where a value is lent for writing.
pub fn kept_after_writing()
    ensures { KeptAfterWriting }
{}

/// Equal slots at every number are equal contents.
pub fn slots_determine()
    ensures { SlotsDetermine }
{}

/// Keys are ordered and equal as the scalars that they are, and equal keys feed a hasher alike: the place of the variant,
/// and then the value.
pub fn key_order()
    ensures order { (a : MapKey) (b : MapKey) → ⟦<MapKey as Ord>⟧.cmp a b ≡ scalar_cmp (key_of a) (key_of b) }
    ensures equality { (a : MapKey) (b : MapKey) → ⟦<MapKey as PartialEq>⟧.eq a b ≡ scalar_eq (key_of a) (key_of b) }
    ensures hash { (a : MapKey) → ⟦<MapKey as Hash>⟧.hash_input a ≡ key_writes (key_of a) }
    ensures alike { (a : MapKey) (b : MapKey) → scalar_eq (key_of a) (key_of b) ≡ true
        → ⟦<MapKey as Hash>⟧.hash_input a ≡ ⟦<MapKey as Hash>⟧.hash_input b }
{}

/// The value of a key becomes that key again by `Value::into_map_key`: as the same scalar, and keys that are one scalar are
/// equal.
pub fn key_again()
    ensures again { (key : MapKey) → key_in (ScalarValue (key_of key)) ≡ Some (key_of key) }
    ensures equal { (a : MapKey) (b : MapKey) → key_of a ≡ key_of b → ⟦<MapKey as PartialEq>⟧.eq a b ≡ true }
{}

/// An entry put into a map is put among its pairs.
pub fn map_insert()
    ensures { MapInsert }
{}

/// Two messages whose descriptors are equal are written as the same bytes exactly if they hold the same for others, at every
/// depth. Both have to be encodable and typed, as `is_encodable` and `is_typed` tell, and the encoding has to have a length, as
/// each that was written has.
pub fn same_bytes()
    ensures { (a : DynamicMessage) (b : DynamicMessage) (c : MessageDescriptor) (d : MessageDescriptor)
        → NamesSame c (message_type_of a)
        → NamesSame d (message_type_of b)
        → IsTrue (⟦<MessageDescriptor as PartialEq>⟧.eq c d)
        → WellStored (content_of a)
        → WellStored (content_of b)
        → length (encoded (kept (content_of a))) < 2 ^ 64
        → (encoded (kept (content_of a)) ≡ encoded (kept (content_of b)))
        ↔ (kept (content_of a) ≡ kept (content_of b)) }
{
    descriptor_equality();
}

/// The premises of these laws, and of the one on fields that nest too deep, hold at worked examples.
pub fn worked_instances()
    ensures contents { OfContentLaws }
    ensures kept { OfKeptLaws }
    ensures depth { OfDepth }
{}
