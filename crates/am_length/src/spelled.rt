ghost use Rattle.std.specs.Prelude.{◌≡◌, ℕ};
ghost use Rattle.am_length.specs.Capped.{capped};
ghost use Rattle.am_length.specs.Lengths.{labels_length, optional_text_length, text_length};

use crate::labels::labels_len;
use am_labels::LabelSet;
use am_text::Text;

/// What is spelled in a message, in so many bytes.
pub trait Spelled {
    ghost spelled: { Self → ℕ };

    /// How many bytes spell it, in time proportional to its texts.
    fn spelled_len(&self) -> u64
        ensures { result ≡ capped (spelled self.now) };
}

impl Spelled for LabelSet {
    ghost spelled = { labels_length };

    fn spelled_len(&self) -> u64 {
        labels_len(self.labels())
    }
}

// A text that may be missing has a flag before it.
impl Spelled for Option<Text> {
    ghost spelled = { optional_text_length };

    fn spelled_len(&self) -> u64 {
        match self {
            None => 1,
            Some(text) => text_len(text.as_str()).saturating_add(1),
        }
    }
}

/// How many bytes spell a text.
pub fn text_len(text: &str) -> u64
    ensures { result ≡ capped (text_length text.now) }
{
    (text.len() as u64).saturating_add(4)
}
