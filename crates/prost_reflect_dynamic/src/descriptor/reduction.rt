//! Whether a message type is another with fields left out.

use crate::descriptor::MessageDescriptor;
use prost_reflect_reduction::{ReductionFault, is_reduction, reduction_fault};
use prost_reflect_tables::Tables;
use std::alloc::AllocError;

impl MessageDescriptor {
    ghost use Rattle.std.specs.Prelude.{◌≡◌, ◌<◌, ◌↔◌, Some, IfOk, IsTrue, length, true};
    ghost use Rattle.std.specs.Option.{is_none};
    ghost use Rattle.prost_reflect_wire.specs.Reduction.{Reduced};
    ghost use Rattle.prost_reflect_wire.specs.Schema.{schema_valid};
    ghost use Rattle.prost_reflect_tables.specs.Schema.{rows_of};
    ghost use Rattle.prost_reflect_reduction.specs.Faults.{FaultStands};
    ghost use Rattle.prost_reflect_reduction.specs.declared.fault.ReductionFault.{ReductionFault};
    ghost use Rattle.prost_reflect_pool.specs.SharedPools.{pool_rows};
    ghost use Rattle.prost_reflect_dynamic.specs.Named.{schema_named, type_named};

    /// The tables of the message type's pool, in which its place is one of a message type.
    pub(super) fn tables(&self) -> &Tables
        ensures rows { rows_of result.now ≡ pool_rows self.now.pool.inner }
        ensures place { self.now.index < length (rows_of result.now).messages }
    {
        self.parent_pool().inner.tables()
    }

    /// Whether the message type is a reduction of a newer one: that type, perhaps with fields left out, in it and in the
    /// message types of its fields. What a reduction reads and writes again means to the newer type what it meant before.
    ///
    /// For each field of this type the newer type has a field of that number, both are extensions or neither is, and they
    /// agree in kind, cardinality, presence and default; packing may differ. Enums agree in their first number and, where
    /// they are closed, in all numbers, and message types are reductions in turn. Members of a oneof are so in the newer
    /// type too, and a field that this type lacks shares a oneof with no other field. A map's entry lacks none.
    ///
    /// The time is linear in the pairs of message types that are reached and their fields, up to a logarithm.
    ///
    /// # Errors
    ///
    /// `AllocError` if out of memory.
    pub fn is_reduction_of(&self, newer: &MessageDescriptor) -> Result<bool, AllocError>
        ensures decides { IfOk result
            (λ yes. Reduced (schema_named self.now) (type_named self.now) (schema_named newer.now)
            (type_named newer.now)
            ↔ IsTrue yes) }
        ensures newer { schema_valid (schema_named newer.now) ≡ true }
    {
        let alloc = self.parent_pool().inner.allocator();
        is_reduction(
            alloc,
            self.tables(),
            self.index(),
            newer.tables(),
            newer.index(),
        )
    }

    /// Why the message type is no reduction of a newer one, or `None` exactly where `is_reduction_of` answers yes.
    ///
    /// The fault has a path of field numbers, which lead from the two types to two message types of their fields, and what
    /// differs between these two: at the number of a field, or in the types themselves. It is the first that is found:
    /// types that fewer fields lead to are compared first, and in a type fields of smaller numbers.
    ///
    /// ```
    /// use prost_reflect::builtin_pool;
    /// use std::alloc::Global;
    /// use std::test::Fail;
    ///
    /// // The fields of `builtin.Kept` have presence, and those of `builtin.Plain` have none, so the fault is `1: presence`.
    /// fn compared(alloc: Global) -> Result<String, Fail> {
    ///     let pool = builtin_pool(alloc)?;
    ///     let plain = pool.get_message_by_name("builtin.Plain")?.ok_or("no builtin.Plain")?;
    ///     let kept = pool.get_message_by_name("builtin.Kept")?.ok_or("no builtin.Kept")?;
    ///     let fault = plain.reduction_fault(&kept)?.ok_or("a reduction")?;
    ///     Ok(format!(in alloc; "{fault}")?)
    /// }
    /// ```
    ///
    /// The time is that of `is_reduction_of`.
    ///
    /// # Errors
    ///
    /// `AllocError` if out of memory.
    pub fn reduction_fault(
        &self,
        newer: &MessageDescriptor,
    ) -> Result<Option<ReductionFault>, AllocError>
        ensures none { IfOk result
            (λ fault. Reduced (schema_named self.now) (type_named self.now) (schema_named newer.now)
            (type_named newer.now)
            ↔ IsTrue (is_none fault)) }
        ensures stands { IfOk result
            (λ found. (fault : ReductionFault) → found ≡ Some fault
            → FaultStands (schema_named self.now) (type_named self.now) (schema_named newer.now)
            (type_named newer.now) fault) }
    {
        let alloc = self.parent_pool().inner.allocator();
        reduction_fault(
            alloc,
            self.tables(),
            self.index(),
            newer.tables(),
            newer.index(),
        )
    }
}
