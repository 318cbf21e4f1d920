//! The lines of a log.

ghost use Rattle.std.specs.Prelude.{◌≡◌, IfOk, min};
ghost use Rattle.am_text.specs.Moment.{greatest_moment};
ghost use Rattle.am_log.specs.Lines.{line_of};

use crate::entry::Entry;
use crate::form::Form;
use crate::object::object_text;
use crate::plain::plain_text;
use am_text::{Moment, Octets};
use std::alloc::{AllocError, Global};

/// How the lines of a log are written, and the moment at which.
#[derive(Clone, Copy)]
pub struct Log {
    form: Form,
    // In milliseconds since 1970.
    moment: u64,
}

impl Log {
    /// Lines of this form, at a moment in milliseconds since 1970. One after the year 9999 is written as the end of
    /// that.
    pub fn new(form: Form, moment: u64) -> Log
        ensures { result ≡ record { form = form; moment = moment } }
    {
        Log { form, moment }
    }

    /// Sentences, which don't tell when.
    pub fn plain() -> Log
        ensures { result ≡ record { form = Form.Plain; moment = 0 } }
    {
        Log::new(Form::Plain, 0)
    }

    /// The line that tells an entry, with its end: a sentence; or a JSON object of the moment as `time` (RFC 3339),
    /// `level` (`info`, `warn` or `error`), `event`, and what is told besides.
    ///
    /// # Errors
    /// Out of memory.
    pub fn line(self, alloc: Global, entry: &Entry) -> Result<Octets, AllocError>
        ensures { IfOk result (λ line. line ≡ line_of self.form (min self.moment greatest_moment) entry.now) }
    {
        let mut bytes = match self.form {
            Form::Plain => plain_text(alloc, entry)?.into_bytes(),
            Form::Json => object_text(alloc, moment_of(self.moment), entry)?.into_vec(),
        };
        bytes.push(b'\n')?;
        Ok(Octets::from_vec(bytes))
    }
}

// The moment of so many milliseconds since 1970, or the greatest.
fn moment_of(milliseconds: u64) -> Moment
    ensures { result ≡ min milliseconds greatest_moment }
{
    match Moment::from_milliseconds(milliseconds) {
        Some(moment) => moment,
        None => Moment::greatest(),
    }
}
