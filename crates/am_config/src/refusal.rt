//! Why a configuration is refused.

ghost use Rattle.std.specs.Prelude.{◌≡◌, Some};
ghost use Rattle.am_config.specs.Refusals.{code_of, of_draft, of_matcher};

use am_draft::DraftRefusal;
use am_match::MatcherRefusal;
use std::error::Error;
use std::fmt;

/// Why a configuration is refused: the first check that fails over the whole text.
#[derive(Clone, Copy, Debug, PartialEq, Eq)]
pub enum ConfigRefusal {
    /// The document or the text within it is not JSON (RFC 8259), nests more than 127 deep, or has a number past the
    /// range of a double.
    NotJson,
    /// A key is unknown, a required one is absent, a value is of the wrong kind, or a name of a label is none.
    BadForm,
    /// A route names a receiver that isn't listed, or two receivers have one name.
    BadReceiver,
    /// The root has matchers.
    RootMatchers,
    /// A duration is not read, or `group_interval` or `repeat_interval` is shorter than a second.
    BadDuration,
    /// A key stands that amring leaves out.
    LeftOut,
    /// A text gives no matchers, or a pattern of it is not read, nests too deep or is longer than 256 bytes.
    BadMatcher,
    /// There are more than 1,000 routes or receivers, more than 16 webhooks of one receiver, or a route is deeper than
    /// 16.
    TooMany,
    /// The URL of a webhook is not one that amring sends to.
    BadUrl,
    /// The build of a pattern was refused, as for its size.
    BuildRefused,
}

impl ConfigRefusal {
    /// The code of the refusal, `C1` to `C9` or `B2`.
    pub fn code(self) -> &'static str
        ensures { result.now ≡ code_of self }
    {
        match self {
            ConfigRefusal::NotJson => "C1",
            ConfigRefusal::BadForm => "C2",
            ConfigRefusal::BadReceiver => "C3",
            ConfigRefusal::RootMatchers => "C4",
            ConfigRefusal::BadDuration => "C5",
            ConfigRefusal::LeftOut => "C6",
            ConfigRefusal::BadMatcher => "C7",
            ConfigRefusal::TooMany => "C8",
            ConfigRefusal::BadUrl => "C9",
            ConfigRefusal::BuildRefused => "B2",
        }
    }

    // The refusal of a configuration whose draft is refused.
    pub(crate) fn of_draft(refusal: DraftRefusal) -> ConfigRefusal
        ensures { result ≡ of_draft refusal }
    {
        match refusal {
            DraftRefusal::NotJson => ConfigRefusal::NotJson,
            DraftRefusal::BadForm => ConfigRefusal::BadForm,
        }
    }

    // The refusal for a text that gives no matchers; a build that was refused is told apart.
    pub(crate) fn of_matcher(refusal: MatcherRefusal) -> ConfigRefusal
        ensures { result ≡ of_matcher refusal }
    {
        match refusal {
            MatcherRefusal::NoMatchers | MatcherRefusal::BadPattern | MatcherRefusal::LongPattern =>
                { ConfigRefusal::BadMatcher }
            MatcherRefusal::BuildRefused => ConfigRefusal::BuildRefused,
        }
    }
}

impl fmt::Display for ConfigRefusal {
    ghost output = { λ refusal. Some (code_of refusal) };

    fn fmt<W: fmt::Write>(&self, f: &mut fmt::Formatter<W>) -> fmt::Result {
        f.pad(self.code())
    }
}

impl Error for ConfigRefusal {}
