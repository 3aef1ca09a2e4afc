//! Whether two message types are one.

ghost use Rattle.std.specs.Prelude.{◌≡◌, ◌↔◌, IsTrue};
ghost use Rattle.prost_reflect_pool.specs.SharedPools.{pool_contents};

use prost_reflect_pool::{LinkedPool, PooledType};
use std::rc::Rc;

/// Whether a message type is the one at a place of the pool, or of a pool whose files hold the same.
pub fn stands_at(message_type: &PooledType, pool: &Rc<LinkedPool>, place: usize) -> bool
    ensures { IsTrue result ↔ ((pool_contents pool.now ≡ pool_contents message_type.now.pool) × (place ≡ message_type.now.index)) }
{
    place == message_type.index() && *pool == *message_type.pool()
}

/// Whether two message types are one, by what their pools' files hold and their places there. The places are compared first,
/// since two pools are compared file by file.
pub fn are_equal_types(a: &PooledType, b: &PooledType) -> bool
    ensures { IsTrue result ↔ ((pool_contents b.now.pool ≡ pool_contents a.now.pool) × (b.now.index ≡ a.now.index)) }
{
    stands_at(a, b.pool(), b.index())
}
