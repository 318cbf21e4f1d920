/// How much a tenant may have. Each number is the greatest that is still accepted.
#[derive(Clone, Copy, PartialEq, Eq)]
pub struct Limits {
    /// Alerts that are held, resolved ones too.
    pub alerts: u64,
    /// Silences that are held and not expired.
    pub silences: u64,
    /// Bytes of a posted configuration.
    pub configuration: u64,
    /// Bytes of a posted silence.
    pub silence: u64,
    /// Notices from one instance in one minute of the clock.
    pub notices: u64,
    /// Bytes that the alerts that are held take together, as messages spell them; `None` where they aren't limited.
    pub alert_bytes: Option<u64>,
}

/// The limits of a tenant for which none were set: 10,000 alerts, 1,000 silences, configurations of
/// 131,072 bytes, silences of 16,384 bytes, 60 notices a minute, and no limit on the bytes of its alerts.
impl Default for Limits {
    ghost use Rattle.std.specs.Prelude.{◌≡◌};
    ghost use Rattle.am_limit.specs.Limits.{default_limits};

    ghost is_default = { λ limits. limits ≡ default_limits };

    fn default() -> Limits {
        Limits {
            alerts: 10_000,
            silences: 1_000,
            configuration: 131_072,
            silence: 16_384,
            notices: 60,
            alert_bytes: None,
        }
    }
}
