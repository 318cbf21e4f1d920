//! How a scenario ends: what is written last, what is told on standard error, and the exit status.
ghost use Rattle.std.specs.Prelude.{◌≡◌, ◌++◌, IfErr, IfOk, IsOk, OnErr, OnOk, codes, string_bytes};
ghost use Rattle.std.specs.Io.KnownBytes.{Appends};
ghost use Rattle.std.specs.Process.{exit_status};
ghost use Rattle.am_report.specs.Ending.{complaint, faults_line, status_of, told};
ghost use Rattle.am_stream.specs.Writing.{AppendsPart};

use am_stream::Sink;
use itoa::Buffer;
use std::alloc::{AllocError, Global};
use std::io;
use std::process::ExitCode;

/// The exit status of a bad command line, and of a line that is no command.
const REFUSED: u8 = 2;

/// How a scenario ended.
#[derive(Clone, Copy, PartialEq, Eq)]
pub enum Played {
    /// Every line was played, and `faults N` was written.
    All,
    /// The line of this number, counted from 1, is no command. The lines before it were played.
    BadLine(u64),
}

/// The last line of a scenario.
pub fn faults_line(alloc: Global, faults: u64) -> Result<String, AllocError>
    ensures { IfOk result (λ line. string_bytes line ≡ faults_line faults) }
{
    format!(in alloc; "faults {faults}\n")
}

/// Tells how a scenario ended.
///
/// # Errors
/// One of the sink's: a first part was told.
pub fn tell<E: Sink>(errors: &mut E, played: Played) -> io::Result<ExitCode>
    ensures status { IfOk result (λ status. exit_status status ≡ status_of played) }
    ensures told { OnOk result (Appends (E.contents errors.old) (E.contents errors.new) (told played)) }
    ensures err { OnErr result (AppendsPart (E.contents errors.old) (E.contents errors.new) (told played)) }
    ensures cause { IfErr result E.fails_with }
    ensures all { played ≡ Played.All → IsOk result }
{
    match played {
        Played::All => Ok(ExitCode::SUCCESS),
        Played::BadLine(number) => {
            errors.write_whole(b"line ")?;
            errors.write_whole(Buffer::new().format(number).as_bytes())?;
            errors.write_whole(b": not a command\n")?;
            Ok(ExitCode::from(REFUSED))
        }
    }
}

/// Tells what is wrong with a command line.
///
/// # Errors
/// One of the sink's: a first part was told.
pub fn refuse<E: Sink>(errors: &mut E, text: &str) -> io::Result<ExitCode>
    ensures status { IfOk result (λ status. exit_status status ≡ 2) }
    ensures told { OnOk result (Appends (E.contents errors.old) (E.contents errors.new) (complaint text.now)) }
    ensures err { OnErr result (AppendsPart (E.contents errors.old) (E.contents errors.new) (complaint text.now)) }
    ensures cause { IfErr result E.fails_with }
{
    errors.write_whole(b"amring: ")?;
    errors.write_whole(text.as_bytes())?;
    errors.write_whole(b"\n")?;
    Ok(ExitCode::from(REFUSED))
}
