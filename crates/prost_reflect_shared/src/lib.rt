//! Lists whose clones share what stands in them.
//!
//! A `SharedList` is a list that grows at its end, as the rows of a pool of definitions do. Its items stand in chunks of 64, and the
//! last few beside them. A clone costs a count for each chunk and each item beside them, whatever an item holds, and a push of
//! either list leaves the other as it is.
//!
//! `shared_list` has the list and its calls, each of which says what it does to the items in their order; `shared_items` walks over
//! them. `pointers` makes lists of pointers, and chunks of them. A call that runs out of memory changes nothing.
//!
//! `shared_slice` has items in one block, which never change; a clone costs one count.
#![tactic(auto)]

mod pointers;
pub mod shared_items;
pub mod shared_list;
pub mod shared_slice;
