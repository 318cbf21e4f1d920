//! What a call of the database that failed is told as.

ghost use Rattle.std.specs.Prelude.{◌≡◌, ◌↔◌};
ghost use Rattle.am_text.specs.Outcome.{ForRefused};

use am_rows::StoreRefusal;
use am_text::Failure;
use sqlite::{Error, ErrorCode};

pub(crate) fn failure_of(error: Error) -> Failure<StoreRefusal>
    ensures memory { (result ≡ Failure.OutOfMemory) ↔ (error ≡ Error.SqliteFailure ErrorCode.OutOfMemory) }
    ensures database { ForRefused result (λ refusal. refusal ≡ StoreRefusal.Database) }
{
    match error {
        Error::SqliteFailure(ErrorCode::OutOfMemory) => Failure::OutOfMemory,
        _ => Failure::Refused(StoreRefusal::Database),
    }
}
