//! Pools to which files are added, and how many definitions they have.

use prost_reflect_pool::LinkedPool;

/// A pool to which files are added, as the checks and the linking of the added files ask it.
#[derive(Clone, Copy)]
pub struct Base<'p> {
    /// The pool.
    pub(crate) pool: &'p LinkedPool,
}

impl<'p> Base<'p> {
    ghost use Rattle.std.specs.Prelude.{◌≡◌};
    ghost use Rattle.prost_reflect_pool.specs.Pools.{files_of};
    ghost use Rattle.prost_reflect_base.specs.Below.{files_below};

    /// What stands in a pool.
    pub fn of(pool: &'p LinkedPool) -> Base<'p>
        ensures pool { result.pool.now ≡ pool.now }
        ensures files { files_below result ≡ files_of pool.now }
    {
        Base { pool }
    }

    /// The pool.
    pub fn pool(self) -> &'p LinkedPool
        ensures { result.now ≡ self.entry.pool.now }
    {
        self.pool
    }
}

/// How many there are of each sort.
impl Base<'_> {
    ghost use Rattle.std.specs.Prelude.{◌≡◌, length};
    ghost use Rattle.prost_reflect_base.specs.Below.{files_below, rows_below};

    /// The number of files.
    pub fn file_count(&self) -> usize
        ensures { result ≡ length (files_below self.now) }
    {
        self.pool.file_count()
    }

    /// The number of message types, nested ones too.
    pub fn message_count(&self) -> usize
        ensures { result ≡ length (rows_below self.now).messages }
    {
        self.pool.message_count()
    }

    /// The number of enums, nested ones too.
    pub fn enum_count(&self) -> usize
        ensures { result ≡ length (rows_below self.now).enums }
    {
        self.pool.enum_count()
    }

    /// The number of extensions, wherever they are declared.
    pub fn extension_count(&self) -> usize
        ensures { result ≡ length (rows_below self.now).extensions }
    {
        self.pool.extension_count()
    }

    /// The number of services.
    pub fn service_count(&self) -> usize
        ensures { result ≡ length (rows_below self.now).services }
    {
        self.pool.service_count()
    }
}
