//! Adding files to pools.

ghost use Rattle.std.specs.Prelude.{◌≡◌, ◌++◌, ◌∷◌, [], List, not, IsTrue, IfOk, IfErr, OnOk, OnErr};
ghost use Rattle.prost_reflect_types.specs.DescriptorViews.{shared_files};
ghost use Rattle.prost_reflect_types.specs.declared.FileDescriptorProto.{FileDescriptorProto};
ghost use Rattle.prost_reflect_tables.specs.Adding.{is_there, added, AreNamesOf};
ghost use Rattle.prost_reflect_flat.specs.FlatViews.{file_list};
ghost use Rattle.prost_reflect_tables.specs.declared.error.PoolError.TheVariants as pool_errors;
ghost use Rattle.prost_reflect_pool.specs.FileNames.{names_differ};
ghost use Rattle.prost_reflect_pool.specs.Pools.{files_of, IsPoolOf, RefusesFiles};

use crate::building::link_behind;
use prost_reflect_pool::LinkedPool;
use prost_reflect_tables::{PoolError, text_or_empty};
use prost_reflect_types::FileDescriptorProto;
use std::alloc::{AllocError, Global};
use std::collections::BTreeSet;
use std::rc::Rc;

// FILES AND THEIR NAMES

/// Handles of these files: each is shared once more, and no record is copied.
fn shared(
    alloc: Global,
    files: &[Rc<FileDescriptorProto>],
) -> Result<Vec<Rc<FileDescriptorProto>>, AllocError>
    ensures { IfOk result (λ v. shared_files v.items ≡ shared_files files.now) }
{
    let mut copies = Vec::new(alloc);
    for file in files {
        copies.push(file.clone()?)?;
    }
    Ok(copies)
}

/// The files, lent.
fn lent<'f>(
    alloc: Global,
    files: &'f [Rc<FileDescriptorProto>],
) -> Result<Vec<&'f FileDescriptorProto>, AllocError>
    ensures { IfOk result (λ v. file_list v.items ≡ shared_files files.now) }
{
    let mut lent = Vec::new(alloc);
    for file in files {
        let file: &'f FileDescriptorProto = file;
        lent.push(file)?;
    }
    Ok(lent)
}

/// Whether a file of the pool has the file's name. A file without a name has none.
fn is_known(pool: &LinkedPool, file: &FileDescriptorProto) -> bool
    ensures { result ≡ is_there (files_of pool.now) file.now }
{
    let name = text_or_empty(&file.name);
    if name.is_empty() {
        return false;
    }
    pool.file_place(name).is_some()
}

/// Adds the name of a file, if it has one, and answers whether it is new.
fn add_name(
    alloc: Global,
    names: &mut BTreeSet<String>,
    file: &FileDescriptorProto,
) -> Result<bool, AllocError>
    ensures new { IfOk result
        (λ new. (files : List FileDescriptorProto) → AreNamesOf files names.old → new ≡ not (is_there files file.now)) }
    ensures names { OnOk result
        ((files : List FileDescriptorProto) → AreNamesOf files names.old
        → AreNamesOf (files ++ file.now ∷ []) names.new) }
{
    let name = text_or_empty(&file.name);
    if name.is_empty() {
        return Ok(true);
    }
    Ok(names.insert(String::from_str(alloc, name)?)?)
}

/// Adds a file behind the new ones, unless one of its name is in the pool or among them.
fn add_file(
    alloc: Global,
    pool: &LinkedPool,
    new: &mut Vec<Rc<FileDescriptorProto>>,
    names: &mut BTreeSet<String>,
    file: FileDescriptorProto,
) -> Result<(), PoolError>
    requires { AreNamesOf (shared_files new.old.items) names.old }
    ensures names { OnOk result (AreNamesOf (shared_files new.new.items) names.new) }
    ensures added { OnOk result
        ((batch : List FileDescriptorProto)
        → added (files_of pool.now ++ shared_files new.old.items) (file ∷ batch)
        ≡ added (files_of pool.now ++ shared_files new.new.items) batch) }
    ensures differ { OnOk result
        (IsTrue (names_differ (files_of pool.now ++ shared_files new.old.items))
        → IsTrue (names_differ (files_of pool.now ++ shared_files new.new.items))) }
    ensures err { IfErr result (λ e. e ≡ pool_errors.OutOfMemory) }
{
    if is_known(pool, &file) {
        return Ok(());
    }
    if add_name(alloc, names, &file)? {
        new.push(Rc::new(alloc, file)?)?;
    }
    Ok(())
}

/// The files of a batch that are not skipped, in their order.
fn new_files(
    alloc: Global,
    pool: &LinkedPool,
    batch: Vec<FileDescriptorProto>,
) -> Result<Vec<Rc<FileDescriptorProto>>, PoolError>
    ensures added { IfOk result (λ new. files_of pool.now ++ shared_files new.items ≡ added (files_of pool.now) batch.items) }
    ensures differ { IfOk result (λ new. IsTrue (names_differ (files_of pool.now ++ shared_files new.items))) }
    ensures err { IfErr result (λ e. e ≡ pool_errors.OutOfMemory) }
{
    let mut new = Vec::new(alloc);
    let mut names = BTreeSet::new(alloc);
    for file in batch {
        add_file(alloc, pool, &mut new, &mut names, file)?;
    }
    Ok(new)
}

/// The files of the pool, each shared once more, and new ones behind them.
fn all_files(
    alloc: Global,
    pool: &LinkedPool,
    new: Vec<Rc<FileDescriptorProto>>,
) -> Result<Vec<Rc<FileDescriptorProto>>, AllocError>
    ensures { IfOk result (λ files. shared_files files.items ≡ files_of pool.now ++ shared_files new.items) }
{
    let mut files = shared(alloc, pool.files())?;
    let mut new = new;
    files.append(&mut new)?;
    Ok(files)
}

/// The pool of a pool's files and of those of the batch, in their order; they may depend on one another in any order.
///
/// A file of a name that is there already is skipped unchecked, and of several files of one name the first is taken. What the
/// pool has is neither checked nor linked again, and stays shared with it. The cost grows as n log n in the number of added
/// definitions; beside it stand a count for each file and for each 64 definitions of the pool, a copy of its places by name of each
/// sort that is added, and, where its messages are extended, what these have.
///
/// # Errors
///
/// The name of a fault that the files of the pool have together with those that are added, or `OutOfMemory` if memory runs out.
pub fn with_files(
    pool: &LinkedPool,
    batch: Vec<FileDescriptorProto>,
) -> Result<LinkedPool, PoolError>
    ensures ok { IfOk result (IsPoolOf (added (files_of pool.now) batch.items)) }
    ensures refused { IfErr result (RefusesFiles (added (files_of pool.now) batch.items)) }
{
    let alloc = *batch.allocator();
    let new = new_files(alloc, pool, batch)?;
    let lent = lent(alloc, new.as_slice())?;
    let (tables, catalog) = link_behind(alloc, pool, lent.as_slice())?;
    drop(lent);
    Ok(LinkedPool::of(all_files(alloc, pool, new)?, tables, catalog))
}
