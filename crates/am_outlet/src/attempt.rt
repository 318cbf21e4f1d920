use crate::request::request_bytes;
use am_item::{EntryKey, LabelSets};
use am_text::{Moment, Octets, Text};
use am_url::WebhookUrl;
use std::alloc::{AllocError, Global};

/// What a webhook is to be told of a group, and what is recorded once it was told.
#[derive(Drop)]
pub struct Notice {
    /// Who is told of what.
    pub key: EntryKey,
    /// Where it goes.
    pub url: WebhookUrl,
    /// The body of the request, JSON.
    pub body: Octets,
    /// The alerts of which it tells that they fire.
    pub firing: LabelSets,
    /// The alerts of which it tells that they are resolved.
    pub resolved: LabelSets,
    /// How many milliseconds after its stamp the entry that records it is of use.
    pub span: u64,
}

/// A notice that no answer has settled yet.
#[derive(Drop)]
pub struct Attempt {
    /// What is told.
    pub notice: Notice,
    /// How many tries there were, 1 to 5.
    pub tries: u8,
    /// When the next try is due. `None` while the outcome of the last one is awaited.
    pub again: Option<Moment>,
}

/// A try of an attempt, which goes out.
#[derive(Drop)]
pub struct Sending {
    /// The number of the attempt, one more than that of the tenant's attempt before it, from 1 on.
    pub number: u64,
    /// Which try of the attempt it is, 1 to 5.
    pub tries: u8,
    /// The URL as it is written.
    pub url: Text,
    /// The bytes of the request: the same at each try.
    pub bytes: Octets,
}

impl Sending {
    ghost use Rattle.std.specs.Prelude.{◌≡◌, IfOk};
    ghost use Rattle.am_outlet.specs.Attempts.{sending_of};

    // The try of this number of the attempt of that number.
    pub fn new(
        alloc: Global,
        number: u64,
        tries: u8,
        notice: &Notice,
    ) -> Result<Sending, AllocError>
        ensures { IfOk result (λ sending. sending ≡ sending_of number tries notice.now) }
    {
        let url = Text::read(alloc, notice.url.as_str())?;
        let bytes = request_bytes(alloc, &notice.url, notice.body.as_slice())?;
        Ok(Sending {
            number,
            tries,
            url,
            bytes,
        })
    }
}
