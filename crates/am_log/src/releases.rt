//! How many connections were let go, of which each reason is told at most once a second.

ghost use Rattle.std.specs.Prelude.{◌≡◌, None, Some, IfNone, IfSome};
ghost use Rattle.am_log.specs.Releases.{added, due, is_quiet, none_let_go, once_told, release_of, with_release};
ghost use Rattle.am_log.specs.declared.entry.LetGo.{LetGo};

use crate::entry::LetGo;
use crate::throttle::PAUSE;

/// How many connections were let go for one reason since that was last told, and when it was.
#[derive(Clone, Copy)]
pub struct Release {
    // In milliseconds since 1970.
    told: Option<u64>,
    count: u64,
}

impl Release {
    // None was let go.
    fn none() -> Release
        ensures { result ≡ none_let_go }
    {
        Release {
            told: None,
            count: 0,
        }
    }

    fn add(&mut self, connections: u64)
        ensures { self.new ≡ added connections self.old }
    {
        self.count = self.count.saturating_add(connections);
    }

    // How many are to be told at a moment: those that were let go since, where nothing was told within the second
    // before.
    fn take(&mut self, moment: u64) -> Option<u64>
        ensures due { result ≡ due moment self.old }
        ensures told { self.new ≡ once_told moment self.old }
    {
        let count = self.count;
        if count == 0 || !is_quiet(self.told, moment) {
            return None;
        }
        *self = Release {
            told: Some(moment),
            count: 0,
        };
        Some(count)
    }
}

/// How many connections were let go for each reason since that was last told.
#[derive(Clone, Copy)]
pub struct Releases {
    crowded: Release,
    unread: Release,
    late: Release,
}

impl Releases {
    /// None was let go.
    pub fn new() -> Releases
        ensures { (reason : LetGo) → release_of reason result ≡ none_let_go }
    {
        Releases {
            crowded: Release::none(),
            unread: Release::none(),
            late: Release::none(),
        }
    }

    /// So many more were let go for a reason.
    pub fn count(&mut self, reason: LetGo, connections: u64)
        ensures { self.new ≡ with_release reason (added connections (release_of reason self.old)) self.old }
    {
        match reason {
            LetGo::Crowded => self.crowded.add(connections),
            LetGo::Unread => self.unread.add(connections),
            LetGo::Late => self.late.add(connections),
        }
    }

    /// A reason that is to be told at a moment, in milliseconds since 1970, and how many connections were let go for it
    /// since it last was: it counts as told. Each is to be told where some were let go, and nothing was told of it
    /// within the second before. `None`: there is no such reason.
    pub fn next(&mut self, moment: u64) -> Option<(LetGo, u64)>
        ensures due { IfSome result (λ told. due moment (release_of told.0 self.old) ≡ Some told.1) }
        ensures told { IfSome result (λ told.
            self.new ≡ with_release told.0 (once_told moment (release_of told.0 self.old)) self.old) }
        ensures none { IfNone result ((reason : LetGo) → due moment (release_of reason self.old) ≡ None) }
        ensures stay { IfNone result (self.new ≡ self.old) }
    {
        if let Some(count) = self.crowded.take(moment) {
            return Some((LetGo::Crowded, count));
        }
        if let Some(count) = self.unread.take(moment) {
            return Some((LetGo::Unread, count));
        }
        let count = self.late.take(moment)?;
        Some((LetGo::Late, count))
    }
}

// Whether nothing was told within the second before a moment.
fn is_quiet(told: Option<u64>, moment: u64) -> bool
    ensures { result ≡ is_quiet moment told }
{
    match told {
        Some(told) => moment.saturating_sub(told) >= PAUSE,
        None => true,
    }
}
