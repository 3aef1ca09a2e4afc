//! Taking all fields, or all extensions, of a message.

ghost use Rattle.std.specs.Prelude.{◌≡◌, ◌<◌, ◌≤◌, ◌+◌, ℕ, false, true, [], length, map, zip, All, IfOk, OnOk, OnErr, vec_capacity, vec_len};
ghost use Rattle.std.specs.Vec.Iter.{into_iter_items};
ghost use Rattle.prost_reflect_maps.specs.Items.{IsAscending};
ghost use Rattle.prost_reflect_fields.specs.Known.{known_of, is_listed};
ghost use Rattle.prost_reflect_dynamic.specs.Access.{IsOwnField, has_at, is_field_number, number_of};
ghost use Rattle.prost_reflect_dynamic.specs.Contents.{values_taken};
ghost use Rattle.prost_reflect_dynamic.specs.Edits.{IsPart, Removes};
ghost use Rattle.prost_reflect_dynamic.specs.ExtensionAccess.{IsOwnExtension, extension_number};
ghost use Rattle.prost_reflect_dynamic.specs.ValueLists.{had_pairs, said};
ghost use Rattle.prost_reflect_dynamic.specs.View.{content_of, message_type_of, stored_in};
ghost use Rattle.prost_reflect_walks.specs.Walks.{EachTaken};
ghost use Rattle.prost_reflect_dynamic.specs.declared.message.DynamicMessage.{size-DynamicMessage};
ghost use Rattle.prost_reflect_dynamic.specs.declared.value.Value.{size-Value};

use crate::descriptor::{ExtensionDescriptor, FieldDescriptor};
use crate::message::DynamicMessage;
use crate::message::access::saying;
use crate::message::lists::descriptors::{extension_at, field_at};
use crate::value::Value;
use prost_reflect_maps::items::push_last;
use prost_reflect_pool::PooledType;
use std::alloc::{AllocError, Global};
use std::vec::IntoIter;

/// Fields that were taken from a message, in ascending number, each with its value.
///
/// ```
/// // Moves the fields of a message to another one of its type.
/// fn move_fields(
///     alloc: Global,
///     from: &mut DynamicMessage,
///     to: &mut DynamicMessage,
/// ) -> Result<(), SetFieldError> {
///     for (field, value) in from.take_fields(alloc)? {
///         if to.owns_field(&field) {
///             to.try_set_field(&field, value)?;
///         }
///     }
///     Ok(())
/// }
/// ```
pub type TakenFields = IntoIter<(FieldDescriptor, Value), Global>;
/// Extensions that were taken from a message, in ascending number, each with its value.
///
/// ```
/// // Takes the extensions of a message away, and answers how many it had.
/// fn drop_extensions(alloc: Global, message: &mut DynamicMessage) -> Result<usize, AllocError> {
///     Ok(message.take_extensions(alloc)?.len())
/// }
/// ```
pub type TakenExtensions = IntoIter<(ExtensionDescriptor, Value), Global>;

impl DynamicMessage {
    /// Takes the values of all fields, and answers those that the message had, as `fields` lists them. Stored defaults,
    /// empty lists and empty maps are removed, too. Extensions and unknown fields stay.
    ///
    /// # Errors
    ///
    /// `AllocError` if out of memory; then nothing changes.
    pub fn take_fields(&mut self, alloc: Global) -> Result<TakenFields, AllocError>
        ensures pairs { IfOk result (λ taken. map (λ p. (number_of p.0, p.1)) (into_iter_items taken) ≡ had_pairs false self.old) }
        ensures own { IfOk result (λ taken. All (λ p. IsOwnField (message_type_of self.old) p.0) (into_iter_items taken)) }
        ensures inside { IfOk result (EachTaken (λ p. size-Value p.1 < size-DynamicMessage self.old)) }
        ensures parts { IfOk result (EachTaken (λ p. IsPart self.old (number_of p.0) p.1)) }
        ensures message_type { message_type_of self.new ≡ message_type_of self.old }
        ensures removes { OnOk result (Removes (values_taken false) self.old self.new) }
        ensures gone { OnOk result
            ((n : ℕ) → is_field_number (message_type_of self.old) n ≡ true → has_at n (content_of self.new) ≡ false) }
        ensures err { OnErr result (self.new ≡ self.old) }
    {
        let fields = self.had_fields(alloc)?;
        let taken = self.take_paired(alloc, false, fields)?;
        Ok(taken.into_iter())
    }

    /// Takes the values of all extensions, and answers those that the message had, as `extensions` lists them. Empty lists
    /// and empty maps are removed, too. Fields and unknown fields stay.
    ///
    /// # Errors
    ///
    /// `AllocError` if out of memory; then nothing changes.
    pub fn take_extensions(&mut self, alloc: Global) -> Result<TakenExtensions, AllocError>
        ensures pairs { IfOk result (λ taken. map (λ p. (extension_number p.0, p.1)) (into_iter_items taken) ≡ had_pairs true self.old) }
        ensures own { IfOk result (λ taken. All (λ p. IsOwnExtension (message_type_of self.old) p.0) (into_iter_items taken)) }
        ensures inside { IfOk result (EachTaken (λ p. size-Value p.1 < size-DynamicMessage self.old)) }
        ensures parts { IfOk result (EachTaken (λ p. IsPart self.old (extension_number p.0) p.1)) }
        ensures message_type { message_type_of self.new ≡ message_type_of self.old }
        ensures removes { OnOk result (Removes (values_taken true) self.old self.new) }
        ensures gone { OnOk result
            ((n : ℕ) → is_listed true (known_of (message_type_of self.old)) n ≡ true
            → has_at n (content_of self.new) ≡ false) }
        ensures err { OnErr result (self.new ≡ self.old) }
    {
        let extensions = self.had_extensions(alloc)?;
        let taken = self.take_paired(alloc, true, extensions)?;
        Ok(taken.into_iter())
    }

    /// The fields that the message has.
    fn had_fields(&self, alloc: Global) -> Result<Vec<FieldDescriptor>, AllocError>
        ensures numbers { IfOk result (λ fields. map number_of fields.items ≡ map (λ p. p.0) (had_pairs false self.now)) }
        ensures own { IfOk result (λ fields. All (IsOwnField (message_type_of self.now)) fields.items) }
    {
        let mut left = self.had_values();
        let mut fields = Vec::new(alloc);
        while let Some((number, _)) = left.next_had(false) {
            fields.push(field_at(self.message_type(), number)?)?;
        }
        Ok(fields)
    }

    /// The extensions that the message has.
    fn had_extensions(&self, alloc: Global) -> Result<Vec<ExtensionDescriptor>, AllocError>
        ensures numbers { IfOk result (λ extensions. map extension_number extensions.items ≡ map (λ p. p.0) (had_pairs true self.now)) }
        ensures own { IfOk result (λ extensions. All (IsOwnExtension (message_type_of self.now)) extensions.items) }
    {
        let mut left = self.had_values();
        let mut extensions = Vec::new(alloc);
        while let Some((number, _)) = left.next_had(true) {
            extensions.push(extension_at(self.message_type(), number)?)?;
        }
        Ok(extensions)
    }

    /// Takes the values of all fields, or those of all extensions, and answers those that the message had, each with its
    /// descriptor of these. If out of memory, nothing changes.
    fn take_paired<D: Drop>(
        &mut self,
        alloc: Global,
        of_extensions: bool,
        descriptors: Vec<D>,
    ) -> Result<Vec<(D, Value)>, AllocError>
        ensures pairs { IfOk result (λ pairs. pairs.items ≡ zip descriptors.items (map (λ p. p.1) (had_pairs of_extensions self.old))) }
        ensures ascending { OnOk result (IsAscending (stored_in self.old)) }
        ensures message_type { message_type_of self.new ≡ message_type_of self.old }
        ensures removes { OnOk result (Removes (values_taken of_extensions) self.old self.new) }
        ensures err { OnErr result (self.new ≡ self.old) }
    {
        let pairs = Vec::with_capacity(alloc, descriptors.len())?;
        let taken = self.take_listed(of_extensions)?;
        Ok(paired(self.message_type(), descriptors, taken, pairs))
    }

    /// Takes the values of all fields, or those of all extensions, each with its number. If out of memory, nothing changes.
    fn take_listed(&mut self, of_extensions: bool) -> Result<Vec<(u32, Value)>, AllocError>
        ensures pairs { IfOk result (λ taken. said (known_of (message_type_of self.old)) taken.items ≡ had_pairs of_extensions self.old) }
        ensures ascending { IsAscending (stored_in self.old) }
        ensures message_type { message_type_of self.new ≡ message_type_of self.old }
        ensures removes { OnOk result (Removes (values_taken of_extensions) self.old self.new) }
        ensures err { OnErr result (self.new ≡ self.old) }
    {
        self.fields.take_listed(of_extensions)
    }
}

/// The values that say something, each with the next descriptor. There is room for each pair.
fn paired<D: Drop>(
    message_type: &PooledType,
    descriptors: Vec<D>,
    taken: Vec<(u32, Value)>,
    pairs: Vec<(D, Value)>,
) -> Vec<(D, Value)>
    requires none { pairs.items ≡ [] }
    requires room { vec_len pairs + length descriptors.items ≤ vec_capacity pairs }
    ensures { result.items ≡ zip descriptors.items (map (λ p. p.1) (said (known_of message_type.now) taken.items)) }
{
    let mut pairs = pairs;
    let mut descriptors = descriptors.into_iter();
    for (number, value) in taken {
        if let Some(value) = saying(message_type, number, Some(value)) {
            if let Some(descriptor) = descriptors.next() {
                push_last(&mut pairs, (descriptor, value));
            }
        }
    }
    pairs
}
