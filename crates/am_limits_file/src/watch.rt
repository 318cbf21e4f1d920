//! The file itself, which is read again while the program serves.

ghost use Rattle.std.specs.Prelude.{◌≡◌, IfOk, OnErr};
ghost use Rattle.am_text.specs.Outcome.{Gives};
ghost use Rattle.am_limits_file.specs.Changes.{AreChanges, file_after};
ghost use Rattle.am_limits_file.specs.Watching.{Misses, Renews, Takes, names_none};

use crate::reading::{LimitsFile, read_limits};
use crate::refusal::LimitsRefusal;
use am_limit::Limits;
use am_tenant::TenantName;
use am_text::{Failure, Text};
use std::alloc::{AllocError, Global};
use std::collections::BTreeMap;
use std::fs::{self, Files};
use std::io;

/// What the file was when it was read last.
#[derive(Drop)]
enum Seen {
    /// This text.
    Text(Vec<u8>),
    /// It couldn't be read, for this reason.
    Unreadable(io::ErrorKind),
}

/// What comes of reading the file again.
#[derive(Drop)]
pub enum Renewal {
    /// Nothing is to be done: the file is as it was, and what is wrong with it was told.
    Same,
    /// These tenants get these limits.
    Set(BTreeMap<TenantName, Limits>),
    /// Why the file can't be read or is refused. All limits stay.
    Refused(String),
}

/// The file of tenants' limits: where it lies, what it says, and what was read last.
#[derive(Drop)]
pub struct LimitsWatch {
    path: Text,
    // What holds for a tenant where the file's default says nothing.
    usual: Limits,
    // The last text that wasn't refused says this.
    file: LimitsFile,
    seen: Seen,
}

impl LimitsWatch {
    /// Reads the file at a path for the first time. A number that its default doesn't say is that of `usual`. Where it
    /// can't be read or is refused, the text says why.
    ///
    /// # Errors
    /// Out of memory.
    pub fn open<R: Files + AllocGlobal>(
        rt: &R,
        path: Text,
        usual: Limits,
    ) -> io::Result<Result<LimitsWatch, String>>
        ensures { IfOk result (λ opened. IfOk opened (λ watch. watch.usual ≡ usual)) }
    {
        let text = match fs::read(rt, path.as_str()) {
            Ok(text) => text,
            Err(error) => return Ok(Err(unreadable(rt.alloc(), &path, error)?)),
        };
        match read_limits(rt.alloc(), text.as_slice(), usual) {
            Ok(file) => Ok(Ok(LimitsWatch {
                path,
                usual,
                file,
                seen: Seen::Text(text),
            })),
            Err(Failure::Refused(refusal)) => Ok(Err(refused(rt.alloc(), &path, refusal)?)),
            Err(Failure::OutOfMemory) => Err(io::Error::from(AllocError)),
        }
    }

    /// The limits of a tenant that the file doesn't name.
    pub fn default(&self) -> Limits
        ensures { result ≡ self.now.file.default }
    {
        self.file.default
    }

    /// The tenants that have other limits than the default, with their limits.
    ///
    /// # Errors
    /// Out of memory.
    pub fn first(&self, alloc: Global) -> io::Result<BTreeMap<TenantName, Limits>>
        ensures { IfOk result (λ limits.
            AreChanges (names_none self.now.file.default) self.now.file limits.entries) }
    {
        match LimitsFile::unset(alloc, self.file.default).changes(alloc, &self.file) {
            Ok(changes) => Ok(changes),
            Err(_) => Err(io::Error::from(AllocError)),
        }
    }

    /// Reads the file again. What it says replaces what it said, unless it is refused. What is wrong with it is told
    /// once, until the file is another or can be read again.
    ///
    /// # Errors
    /// Out of memory; the file is then read again the next time.
    pub fn renew<R: Files + AllocGlobal>(&mut self, rt: &R) -> io::Result<Renewal>
        ensures renews { IfOk result (λ renewal. Renews self.old renewal self.new) }
        ensures rest { self.new ≡ record self.old { file = self.new.file; seen = self.new.seen } }
        ensures err { OnErr result (self.new ≡ self.old) }
    {
        match fs::read(rt, self.path.as_str()) {
            Ok(text) => self.take(rt.alloc(), text),
            Err(error) => self.miss(rt.alloc(), error),
        }
    }

    // Takes what the file says.
    fn take(&mut self, alloc: Global, text: Vec<u8>) -> io::Result<Renewal>
        ensures takes { IfOk result (λ renewal. Takes self.old text.items renewal self.new) }
        ensures rest { self.new ≡ record self.old { file = self.new.file; seen = self.new.seen } }
        ensures err { OnErr result (self.new ≡ self.old) }
    {
        if let Seen::Text(last) = &self.seen {
            if last.as_slice() == text.as_slice() {
                return Ok(Renewal::Same);
            }
        }
        let renewal = match self.replace(alloc, text.as_slice()) {
            Ok(changes) => Renewal::Set(changes),
            Err(Failure::Refused(refusal)) => Renewal::Refused(refused(
                alloc, &self.path, refusal,
            )?),
            Err(Failure::OutOfMemory) => return Err(io::Error::from(AllocError)),
        };
        self.seen = Seen::Text(text);
        Ok(renewal)
    }

    // Has a text replace what the file says, and tells what is to be set then. One that is refused replaces nothing.
    #[tactic(auto, unfolding(crate::specs::Changes::file_after))]
    fn replace(
        &mut self,
        alloc: Global,
        text: &[u8],
    ) -> Result<BTreeMap<TenantName, Limits>, Failure<LimitsRefusal>>
        ensures gives { Gives (λ changes. self.new.file) result (file_after self.old.usual self.old.file text.now) }
        ensures changes { IfOk result (λ changes. AreChanges self.old.file self.new.file changes.entries) }
        ensures err { OnErr result (self.new.file ≡ self.old.file) }
        ensures rest { self.new ≡ record self.old { file = self.new.file } }
    {
        let next = read_limits(alloc, text, self.usual)?;
        let changes = self.file.changes(alloc, &next)?;
        self.file = next;
        Ok(changes)
    }

    // Takes that the file can't be read.
    fn miss(&mut self, alloc: Global, error: io::Error) -> io::Result<Renewal>
        ensures misses { IfOk result (λ renewal. Misses self.old renewal self.new) }
        ensures rest { self.new ≡ record self.old { seen = self.new.seen } }
        ensures err { OnErr result (self.new ≡ self.old) }
    {
        let kind = error.kind();
        if let Seen::Unreadable(last) = self.seen {
            if last == kind {
                return Ok(Renewal::Same);
            }
        }
        let told = unreadable(alloc, &self.path, error)?;
        self.seen = Seen::Unreadable(kind);
        Ok(Renewal::Refused(told))
    }
}

// What is told where the file can't be read. Out of memory: where it was that too.
fn unreadable(alloc: Global, path: &Text, error: io::Error) -> io::Result<String> {
    if error.kind() == io::ErrorKind::OutOfMemory {
        return Err(error);
    }
    let path = path.as_str();
    Ok(format!(in alloc; "{path}: {error}")?)
}

// What is told where the file is refused.
fn refused(alloc: Global, path: &Text, refusal: LimitsRefusal) -> io::Result<String> {
    let path = path.as_str();
    Ok(format!(in alloc; "{path}: {refusal}")?)
}
