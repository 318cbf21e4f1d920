//! The databases that an instance keeps its rows in: in memory, or in a file.

ghost use Rattle.std.specs.Prelude.{◌≡◌, [], false, IfErr, IfOk};
ghost use Rattle.sqlite.specs.Files.{IsOpened, file_state};
ghost use Rattle.sqlite.specs.Held.{state};
ghost use Rattle.sqlite.specs.State.{HasCleanDisk};
ghost use Rattle.sqlite.specs.Steps.{over_memory};
ghost use Rattle.am_text.specs.Outcome.{ForRefused};
ghost use Rattle.am_store.specs.Items.{kept_in};

use crate::either::EitherShelf;
use crate::refusal::failure_of;
use crate::shelf::Shelf;
use am_rows::StoreRefusal;
use am_text::Failure;
use sqlite::{Connection, File, FileStore, MemStore};
use std::alloc::{AllocError, Global};

/// A database in memory, which is gone where it is dropped, or one in a file, with its log in another file beside it.
pub type AnyShelf = EitherShelf<MemStore, FileStore<File>>;

impl Shelf<MemStore> {
    /// A database in memory, which has nothing and isn't opened yet.
    pub fn in_memory(alloc: Global) -> Result<Shelf<MemStore>, AllocError>
        ensures closed { IfOk result (λ shelf. shelf.1 ≡ false) }
        ensures blank { IfOk result (λ shelf. kept_in (state over_memory shelf.0).now ≡ []) }
    {
        Ok(Shelf::new(Connection::open_in_memory(alloc)?))
    }
}

impl Shelf<FileStore<File>> {
    /// The database in the file at a path, as it is found, or an empty one in a new file. It isn't opened yet.
    ///
    /// # Errors
    /// `F2` where the file can't be had, another program has it, or it is no whole database; or out of memory.
    pub fn in_file(
        rt: &HostRuntime,
        path: &str,
    ) -> Result<Shelf<FileStore<File>>, Failure<StoreRefusal>>
        ensures closed { IfOk result (λ shelf. shelf.1 ≡ false) }
        ensures found { IfOk result (λ shelf. HasCleanDisk (file_state shelf.0) → IsOpened shelf.0) }
        ensures database { IfErr result (λ failure. ForRefused failure (λ refusal. refusal ≡ StoreRefusal.Database)) }
    {
        match Connection::open(rt, path) {
            Ok(conn) => Ok(Shelf::new(conn)),
            Err(error) => Err(failure_of(error)),
        }
    }
}
