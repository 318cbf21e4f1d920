//! Why a configuration is refused.

ghost use Rattle.std.specs.Prelude.{◌≡◌};
ghost use Rattle.am_judge.specs.Reasons.{code_of};

use am_config::ConfigRefusal;

/// Why a configuration that would be posted is refused.
#[derive(Clone, Copy, Debug, PartialEq, Eq)]
pub enum Reason {
    /// Its document has more bytes than this limit.
    TooLong(u64),
    /// A check of the configuration fails.
    Config(ConfigRefusal),
}

impl Reason {
    /// The code of the refusal: `Li3`, `C1` to `C9` or `B2`.
    pub fn code(self) -> &'static str
        ensures { result.now ≡ code_of self }
    {
        match self {
            Reason::TooLong(_) => "Li3",
            Reason::Config(refusal) => refusal.code(),
        }
    }
}
