//! Laws of the equality of pools: each function has no body, and its contract is a law.

ghost use Rattle.std.specs.Prelude.{◌≡◌, ◌↔◌, IsTrue};
ghost use Rattle.prost_reflect_pool.specs.Pools.{pool_rows, files_of};
ghost use Rattle.prost_reflect_tables.specs.FileLaws.{SameContents};
ghost use Rattle.prost_reflect_pool.specs.declared.pool.LinkedPool.{LinkedPool};

use crate::LinkedPool;

/// Pools are equal by `==` exactly if both have as many files, and their contents are equal one by one; equal pools have equal
/// tables.
pub fn pool_equality()
    ensures files { (a : LinkedPool) (b : LinkedPool)
        → IsTrue (⟦<LinkedPool as PartialEq>⟧.eq a b) ↔ SameContents (files_of a) (files_of b) }
    ensures tables { (a : LinkedPool) (b : LinkedPool) → IsTrue (⟦<LinkedPool as PartialEq>⟧.eq a b) → pool_rows a ≡ pool_rows b }
{}
