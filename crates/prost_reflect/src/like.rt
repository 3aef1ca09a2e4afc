//! What fields and extensions have in common.

ghost use Rattle.std.specs.Prelude.{◌≡◌, ◌↔◌, ℕ, true, IsTrue, IfOk, IfSome, IsSomeAnd, Option, Some, option_map};
ghost use Rattle.prost_reflect_wire.specs.Schema.{is_list, is_map};
ghost use Rattle.prost_reflect_tables.specs.Linking.{is_packable};
ghost use Rattle.prost_reflect_tables.specs.Rows.{FieldRow};
ghost use Rattle.prost_reflect_dynamic.specs.NamedKinds.{table_kind, IsAmong};
ghost use Rattle.prost_reflect_dynamic.specs.Defaults.{default_by_row, IsDefaultByRow};
ghost use Rattle.prost_reflect_dynamic.specs.RowLaws.{takes_by_row, row_form, HasByRow, NumberInRange, DefaultFits, RepeatedWithoutPresence, PackedAsList, MemberWithPresence};
ghost use Rattle.prost_reflect_dynamic.specs.View.{value_of};
ghost use Rattle.prost_reflect_dynamic.specs.declared.descriptor.pool.DescriptorPool.{DescriptorPool};

use prost_reflect_dynamic::{ExtensionDescriptor, FieldDescriptor, Kind, OneofDescriptor, Value};
use std::alloc::{AllocError, Global};

/// A field of a message type, or an extension of one: what is asked of either alike.
///
/// It is proved of each implementation that its number is from 1 to 536870911, that a list or a map has no presence, that
/// its default is a value that it takes, that only a list of a packable kind is packed, and that a member of a oneof has
/// presence and is neither a list nor a map.
pub trait FieldDescriptorLike {
    ghost pool: { Self → DescriptorPool };

    ghost message_place: { Self → Option ℕ };

    ghost table_row: { Self → Option FieldRow };

    /// The number, from 1 to 536870911.
    fn number(&self) -> u32
        ensures { option_map (λ f. f.number) (table_row self.now) ≡ Some result };

    /// The default, which a message has where nothing is stored: an empty list or map, the default that the definition
    /// writes, or else that of the kind.
    ///
    /// # Errors
    ///
    /// `AllocError` if out of memory.
    fn default_value(&self, alloc: Global) -> Result<Value, AllocError>
        ensures value { IfOk result (λ value. Some (value_of value) ≡ default_by_row (pool self.now) (table_row self.now)) }
        ensures default { IfOk result (IsDefaultByRow (pool self.now) (table_row self.now)) }
        ensures valid { IfOk result (λ value. takes_by_row (pool self.now) (table_row self.now) value ≡ true) };

    /// Whether the value is that default. Floating-point numbers are compared by their bits.
    fn is_default_value(&self, value: &Value) -> bool
        ensures { IsTrue result ↔ IsDefaultByRow (pool self.now) (table_row self.now) value.now };

    /// Whether the value fits: one value of the kind, or a list or a map of such. No message is looked into.
    fn is_valid(&self, value: &Value) -> bool
        ensures { result ≡ takes_by_row (pool self.now) (table_row self.now) value.now };

    /// The oneof of which it is a member, or none; an extension is a member of none.
    ///
    /// # Errors
    ///
    /// `AllocError` if out of memory.
    fn containing_oneof(&self) -> Result<Option<OneofDescriptor>, AllocError>
        ensures oneof { IfOk result (λ oneof. option_map (λ f. f.oneof) (table_row self.now) ≡ Some (option_map (λ o. o.index) oneof)) }
        ensures message { IfOk result (λ oneof. IfSome oneof (λ o. Some o.message.index ≡ message_place self.now)) }
        ensures pool { IfOk result (λ oneof. IfSome oneof (λ o. o.message.pool.inner.value ≡ (pool self.now).inner.value)) };

    /// Whether a field that was never set is told apart from one that is set to its default (the guide on field presence).
    fn supports_presence(&self) -> bool
        ensures { option_map (λ f. f.supports_presence) (table_row self.now) ≡ Some result };

    /// The type of the values; a map's is the message type of its entries.
    ///
    /// # Errors
    ///
    /// `AllocError` if out of memory.
    fn kind(&self) -> Result<Kind, AllocError>
        ensures kind { IfOk result (λ kind. option_map (λ f. f.kind) (table_row self.now) ≡ Some (table_kind kind)) }
        ensures pool { IfOk result (IsAmong (pool self.now)) };

    /// Whether a message value is written as a group.
    fn is_group(&self) -> bool
        ensures { option_map (λ f. f.is_group) (table_row self.now) ≡ Some result };

    /// Whether there is a list of values, and no map.
    fn is_list(&self) -> bool
        ensures { option_map (λ f. is_list (row_form (pool self.now) f)) (table_row self.now) ≡ Some result };

    /// Whether it is a map.
    fn is_map(&self) -> bool
        ensures { option_map (λ f. is_map (row_form (pool self.now) f)) (table_row self.now) ≡ Some result };

    /// Whether a list is written as one record.
    fn is_packed(&self) -> bool
        ensures { option_map (λ f. f.is_packed) (table_row self.now) ≡ Some result };

    /// Whether a list of the kind may be written as one record: of all kinds but string, bytes and messages.
    fn is_packable(&self) -> bool
        ensures { option_map (λ f. is_packable f.kind) (table_row self.now) ≡ Some result };

    /// Whether a message that stores the value has the field: there is presence, or the value is not the default.
    fn has(&self, value: &Value) -> bool
        ensures { IsTrue result ↔ HasByRow (pool self.now) (table_row self.now) value.now }
    {
        self.supports_presence() || !self.is_default_value(value)
    }

    ghost number_in_range: { (x : Self) → IsSomeAnd (table_row x) NumberInRange };

    ghost repeated_without_presence: { (x : Self) → IsSomeAnd (table_row x) (RepeatedWithoutPresence (pool x)) };

    ghost default_fits: { (x : Self) → IsSomeAnd (table_row x) (DefaultFits (pool x)) };

    ghost packed_as_list: { (x : Self) → IsSomeAnd (table_row x) (PackedAsList (pool x)) };

    ghost member_with_presence: { (x : Self) → IsSomeAnd (table_row x) (MemberWithPresence (pool x)) };
}

impl FieldDescriptorLike for FieldDescriptor {
    ghost use Rattle.prost_reflect_dynamic.specs.NamedField.{row_at};
    ghost use Rattle.prost_reflect_dynamic.specs.RowLawProofs.{field_in_range, field_without_presence, field_default_fits, field_packed, field_member};

    ghost pool = { λ field. field.message.pool };

    ghost message_place = { λ field. Some field.message.index };

    ghost table_row = { row_at };

    fn number(&self) -> u32 {
        self.number()
    }

    fn default_value(&self, alloc: Global) -> Result<Value, AllocError> {
        self.default_value(alloc)
    }

    fn is_default_value(&self, value: &Value) -> bool {
        value.is_default_for_field(self)
    }

    fn is_valid(&self, value: &Value) -> bool {
        value.is_valid_for_field(self)
    }

    fn containing_oneof(&self) -> Result<Option<OneofDescriptor>, AllocError> {
        self.containing_oneof()
    }

    fn supports_presence(&self) -> bool {
        self.supports_presence()
    }

    fn kind(&self) -> Result<Kind, AllocError> {
        self.kind()
    }

    fn is_group(&self) -> bool {
        self.is_group()
    }

    fn is_list(&self) -> bool {
        self.is_list()
    }

    fn is_map(&self) -> bool {
        self.is_map()
    }

    fn is_packed(&self) -> bool {
        self.is_packed()
    }

    fn is_packable(&self) -> bool {
        self.is_packable()
    }

    ghost number_in_range = { field_in_range };

    ghost repeated_without_presence = { field_without_presence };

    ghost default_fits = { field_default_fits };

    ghost packed_as_list = { field_packed };

    ghost member_with_presence = { field_member };
}

impl FieldDescriptorLike for ExtensionDescriptor {
    ghost use Rattle.prost_reflect_dynamic.specs.NamedExtensions.{extension_named, extension_row_named};
    ghost use Rattle.prost_reflect_dynamic.specs.RowLawProofs.{extension_in_range, extension_without_presence, extension_default_fits, extension_packed, extension_member};

    ghost pool = { λ x. x.pool };

    ghost message_place = { λ x. option_map (λ e. e.message) (extension_named x) };

    ghost table_row = { extension_row_named };

    fn number(&self) -> u32 {
        self.number()
    }

    fn default_value(&self, alloc: Global) -> Result<Value, AllocError> {
        self.default_value(alloc)
    }

    fn is_default_value(&self, value: &Value) -> bool {
        value.is_default_for_extension(self)
    }

    fn is_valid(&self, value: &Value) -> bool {
        value.is_valid_for_extension(self)
    }

    fn containing_oneof(&self) -> Result<Option<OneofDescriptor>, AllocError> {
        Ok(None)
    }

    fn supports_presence(&self) -> bool {
        self.supports_presence()
    }

    fn kind(&self) -> Result<Kind, AllocError> {
        self.kind()
    }

    fn is_group(&self) -> bool {
        self.is_group()
    }

    fn is_list(&self) -> bool {
        self.is_list()
    }

    fn is_map(&self) -> bool {
        self.is_map()
    }

    fn is_packed(&self) -> bool {
        self.is_packed()
    }

    fn is_packable(&self) -> bool {
        self.is_packable()
    }

    ghost number_in_range = { extension_in_range };

    ghost repeated_without_presence = { extension_without_presence };

    ghost default_fits = { extension_default_fits };

    ghost packed_as_list = { extension_packed };

    ghost member_with_presence = { extension_member };
}
