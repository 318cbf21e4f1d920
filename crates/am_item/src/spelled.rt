//! How many bytes spell the parts of items in a message.

ghost use Rattle.std.specs.Prelude.{length};
ghost use Rattle.am_item.specs.Lengths.{alert_details_length, entry_details_length, entry_key_length};
ghost use Rattle.am_item.specs.Lengths.{silence_details_length};

use crate::entry::{EntryDetails, EntryKey};
use crate::item::AlertDetails;
use crate::silence::{SilenceDetails, SilenceId};
use am_length::{Spelled, label_sets_len, labels_len, matchers_len, text_len};

/// An item's kind takes 1 byte, its stamp 21.
pub(crate) const HEAD_LEN: u64 = 22;

impl Spelled for SilenceId {
    ghost spelled = { length };

    fn spelled_len(&self) -> u64 {
        let bytes: &[u8] = self.as_bytes();
        bytes.len() as u64
    }
}

// Each of three moments takes 8 bytes.
impl Spelled for SilenceDetails {
    ghost spelled = { silence_details_length };

    fn spelled_len(&self) -> u64 {
        text_len(self.created_by.as_str())
            .saturating_add(text_len(self.comment.as_str()))
            .saturating_add(matchers_len(self.matchers.as_slice()))
            .saturating_add(24)
    }
}

// Each of two moments takes 8 bytes.
impl Spelled for AlertDetails {
    ghost spelled = { alert_details_length };

    fn spelled_len(&self) -> u64 {
        labels_len(self.annotations.labels())
            .saturating_add(text_len(self.generator_url.as_str()))
            .saturating_add(16)
    }
}

// The webhook takes 1 byte.
impl Spelled for EntryKey {
    ghost spelled = { entry_key_length };

    fn spelled_len(&self) -> u64 {
        text_len(self.receiver.as_str())
            .saturating_add(text_len(self.group.as_str()))
            .saturating_add(1)
    }
}

// The moment takes 8 bytes.
impl Spelled for EntryDetails {
    ghost spelled = { entry_details_length };

    fn spelled_len(&self) -> u64 {
        label_sets_len(self.firing.as_slice())
            .saturating_add(label_sets_len(self.resolved.as_slice()))
            .saturating_add(8)
    }
}
