ghost use Rattle.std.specs.Prelude.{◌≡◌};
ghost use Rattle.std.specs.List.{list_all};
ghost use Rattle.am_labels.specs.Labels.{is_label_name, may_begin, may_follow};

/// Whether the text is a label name: `[a-zA-Z_][a-zA-Z0-9_]*`.
#[tactic(auto, unfolding(crate::specs::Labels::is_label_name))]
pub fn is_label_name(text: &str) -> bool
    ensures { result ≡ is_label_name text.now }
{
    match text.as_bytes() {
        [] => false,
        [first, rest @ ..] => may_begin(*first) && all_may_follow(rest),
    }
}

// Whether a label name may begin with this byte.
fn may_begin(byte: u8) -> bool
    ensures { result ≡ may_begin byte }
{
    byte.is_ascii_alphabetic() || byte == b'_'
}

// Whether these bytes may stand in a label name after the first.
fn all_may_follow(bytes: &[u8]) -> bool
    ensures { result ≡ list_all may_follow bytes.now }
{
    bytes
        .iter()
        .all(|byte| byte.is_ascii_alphanumeric() || *byte == b'_')
}
