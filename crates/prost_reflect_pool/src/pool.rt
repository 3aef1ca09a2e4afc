//! Pools.

ghost use Rattle.std.specs.Prelude.{◌≡◌, [], IsTrue};
ghost use Rattle.prost_reflect_identity.specs.Values.{value_of};
ghost use Rattle.prost_reflect_types.specs.DescriptorViews.{shared_files};
ghost use Rattle.prost_reflect_tables.specs.Built.{AreTablesOf};
ghost use Rattle.prost_reflect_tables.specs.InRange.{in_range};
ghost use Rattle.prost_reflect_tables.specs.LinkedCatalog.{IsCatalogOf, catalog_prop};
ghost use Rattle.prost_reflect_tables.specs.Schema.{rows_of};
ghost use Rattle.prost_reflect_pool.specs.FileNames.{names_differ};

use prost_reflect_identity::Identity;
use prost_reflect_shared::shared_list::SharedList;
use prost_reflect_shared::shared_slice::SharedSlice;
use prost_reflect_tables::{Catalog, SortedPlaces, Tables};
use prost_reflect_types::FileDescriptorProto;
use std::alloc::Global;
use std::fmt::{self, Debug, Formatter, Write};
use std::rc::Rc;

/// What the clones of a pool share: files that pass all checks, no two of one name, the tables that they link to, and their
/// catalog.
pub struct LinkedPool {
    /// The files, in the order in which they were added.
    pub(crate) files: Vec<Rc<FileDescriptorProto>>,
    /// The tables that they link to.
    pub(crate) tables: Tables,
    /// Their catalog.
    pub(crate) catalog: Catalog,
    /// Tells by its place which files these are.
    pub(crate) identity: Identity<Vec<Rc<FileDescriptorProto>>>,
    pub ghost identified: { value_of identity ≡ files },
    pub ghost built: { AreTablesOf (shared_files files.items) (rows_of tables) },
    pub ghost listed: { IsCatalogOf (shared_files files.items) catalog } by { catalog_prop (shared_files files.items) catalog },
    pub ghost names: { IsTrue (names_differ (shared_files files.items)) },
    pub ghost ranged: { IsTrue (in_range (rows_of tables)) },
}

impl Drop for LinkedPool {
    fn drop(self) {
        let LinkedPool {
            files: _,
            tables: _,
            catalog: _,
            identity: _,
        } = self;
    }
}

impl Debug for LinkedPool {
    /// The names of the files.
    fn fmt<W: Write>(&self, f: &mut Formatter<W>) -> fmt::Result {
        f.debug_list()
            .entries(self.files.iter().map(|file| &file.name))
            .finish()
    }
}

impl PartialEq for LinkedPool {
    ghost use Rattle.std.specs.Cmp.{on_per, partial_equiv_from_equiv};
    ghost use Rattle.prost_reflect_pool.specs.PoolEquality.{contents_eq, contents_equivalence};
    ghost use Rattle.prost_reflect_pool.specs.Pools.{contents_of};

    ghost eq = { λ a b. contents_eq (contents_of (shared_files a.files.items)) (contents_of (shared_files b.files.items)) };

    ghost laws = { on_per (λ inner. contents_of (shared_files inner.files.items)) (partial_equiv_from_equiv contents_equivalence) };

    /// Whether the files hold the same, one by one; so their tables are the same, too. Where two handles share one pool, its
    /// identity tells, and no file is looked at.
    fn eq(&self, other: &LinkedPool) -> bool {
        self.identity.is_same(&other.identity) || self.files == other.files
    }
}

impl Eq for LinkedPool {
    ghost use Rattle.std.specs.Cmp.{on_equiv};
    ghost use Rattle.prost_reflect_pool.specs.PoolEquality.{contents_equivalence};
    ghost use Rattle.prost_reflect_pool.specs.Pools.{contents_of};

    ghost laws = { on_equiv (λ inner. contents_of (shared_files inner.files.items)) contents_equivalence };
}

impl LinkedPool {
    ghost use Rattle.prost_reflect_pool.specs.Pools.{IsPoolOf, files_of, pool_rows};

    /// A pool without files.
    pub fn new(alloc: Global) -> LinkedPool
        ensures { IsPoolOf [] result }
    {
        let tables = Tables {
            messages: SharedList::new(alloc),
            enums: SharedList::new(alloc),
        };
        let files = Vec::new(alloc);
        let identity = Identity::of(&files);
        LinkedPool {
            files,
            tables,
            catalog: empty_catalog(alloc),
            identity,
        }
    }

    /// The pool of files that pass all checks, with the tables that they link to and their catalog.
    pub fn of(files: Vec<Rc<FileDescriptorProto>>, tables: Tables, catalog: Catalog) -> LinkedPool
        requires built { AreTablesOf (shared_files files.items) (rows_of tables) }
        requires listed { IsCatalogOf (shared_files files.items) catalog }
        requires names { IsTrue (names_differ (shared_files files.items)) }
        requires ranged { IsTrue (in_range (rows_of tables)) }
        ensures { files_of result ≡ shared_files files.items }
    {
        let identity = Identity::of(&files);
        LinkedPool {
            files,
            tables,
            catalog,
            identity,
        }
    }

    /// The files, in the order in which they were added.
    pub fn files(&self) -> &[Rc<FileDescriptorProto>]
        ensures { shared_files result.now ≡ files_of self.now }
    {
        self.files.as_slice()
    }

    /// The linked tables.
    pub fn tables(&self) -> &Tables
        ensures { rows_of result.now ≡ pool_rows self.now }
    {
        &self.tables
    }

    /// What descriptors tell besides the tables.
    pub fn catalog(&self) -> &Catalog
        ensures { result.now ≡ self.now.catalog }
    {
        &self.catalog
    }

    /// What the files are stored with.
    pub fn allocator(&self) -> Global {
        *self.files.allocator()
    }
}

/// The catalog of no files.
fn empty_catalog(alloc: Global) -> Catalog
    ensures { IsCatalogOf [] result }
{
    Catalog {
        files: SharedList::new(alloc),
        messages: SharedList::new(alloc),
        enums: SharedList::new(alloc),
        extensions: SharedList::new(alloc),
        services: SharedList::new(alloc),
        by_name: SortedPlaces {
            files: SharedSlice::new(),
            messages: SharedSlice::new(),
            enums: SharedSlice::new(),
            extensions: SharedSlice::new(),
            services: SharedSlice::new(),
            values: SharedSlice::new(),
        },
    }
}
