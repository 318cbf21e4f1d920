//! The stores of the eight instances.

ghost use Rattle.std.specs.Prelude.{◌≡◌, ◌<◌, IfOk, IfSome, length};

use am_incarnation::greatest_incarnation;
use am_rows::{Rows, StoreRefusal};
use am_store::{AnyShelf, EitherShelf, Shelf};
use am_stream::Sink;
use am_text::Failure;
use am_world::OpenRefusal;
use std::alloc::{AllocError, Global};
use std::io;
use std::process::ExitCode;

/// The numbers of the instances.
const NUMBERS: [u8; 8] = [1, 2, 3, 4, 5, 6, 7, 8];

/// The exit status where a store is refused.
const REFUSED: u8 = 2;

/// Stores in memory, which are gone when the program ends.
pub fn in_memory(alloc: Global) -> Result<Vec<AnyShelf>, AllocError>
    ensures { IfOk result (λ stores. length stores.items ≡ 8) }
{
    let mut stores = Vec::with_capacity(alloc, NUMBERS.len())?;
    for _number in NUMBERS {
        stores.push(EitherShelf::First(Shelf::in_memory(alloc)?))?;
    }
    Ok(stores)
}

/// The stores in the files `1.db` to `8.db` of a folder; a file that isn't there is made.
///
/// # Errors
/// `F2` of the first store whose file can't be opened, or out of memory.
pub fn in_folder(rt: &HostRuntime, folder: &str) -> Result<Vec<AnyShelf>, OpenRefusal>
    ensures { IfOk result (λ stores. length stores.items ≡ 8) }
{
    let alloc = rt.alloc();
    let mut stores = Vec::with_capacity(alloc, NUMBERS.len())?;
    for instance in NUMBERS {
        let path = format!(in alloc; "{folder}/{instance}.db")?;
        let store = match Shelf::in_file(rt, path.as_str()) {
            Ok(store) => store,
            Err(failure) => return Err(refusal_of(instance, failure)),
        };
        stores
            .push(EitherShelf::Second(store))
            .map_err(AllocError::from)?;
    }
    Ok(stores)
}

/// The incarnation after the greatest in the rows of stores, which are opened for that; none where that is the last.
///
/// # Errors
/// `F2` or `F3` of the first store that refuses, or out of memory.
pub fn next_incarnation<R: Rows>(
    alloc: Global,
    stores: &mut Vec<R>,
) -> Result<Option<u32>, OpenRefusal>
    requires { length stores.old.items ≡ 8 }
    ensures size { length stores.new.items ≡ 8 }
    ensures positive { IfOk result (λ next. IfSome next (λ n. 0 < n)) }
{
    let mut greatest = 0u32;
    for place in 0..NUMBERS.len() {
        match greatest_incarnation(alloc, &mut stores[place]) {
            Ok(incarnation) => greatest = greatest.max(incarnation),
            Err(failure) => return Err(refusal_of(NUMBERS[place], failure)),
        }
    }
    if greatest < u32::MAX {
        Ok(Some(greatest + 1))
    } else {
        Ok(None)
    }
}

/// Why there is no world where the store of an instance fails.
fn refusal_of(instance: u8, failure: Failure<StoreRefusal>) -> OpenRefusal {
    match failure {
        Failure::Refused(refusal) => OpenRefusal::Store { instance, refusal },
        Failure::OutOfMemory => OpenRefusal::OutOfMemory,
    }
}

/// Tells which store was refused, and why.
///
/// # Errors
/// Out of memory, where it was that which failed; or one of the sink's.
pub fn refuse<E: Sink>(
    alloc: Global,
    errors: &mut E,
    refusal: OpenRefusal,
) -> io::Result<ExitCode> {
    match refusal {
        OpenRefusal::Store { .. } => {
            let text = format!(in alloc; "{refusal}\n")?;
            errors.write_whole(text.as_bytes())?;
            Ok(ExitCode::from(REFUSED))
        }
        OpenRefusal::OutOfMemory => Err(io::Error::from(AllocError)),
    }
}
