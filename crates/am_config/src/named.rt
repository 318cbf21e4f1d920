//! Receivers by their names.

ghost use Rattle.std.specs.Prelude.{◌≡◌, not, is_some, IfOk, IfSome};
ghost use Rattle.am_config.specs.Checks.{is_repeated};
ghost use Rattle.am_config.specs.Places.{place};

use am_draft::ReceiverDraft;
use std::alloc::{AllocError, Global};
use std::collections::BTreeMap;
use std::marker::Model;

/// Receivers of which no two have one name. A clause sees the list of them.
#[derive(Drop)]
pub(crate) struct NamedReceivers<'a> {
    receivers: &'a [ReceiverDraft],
    places: BTreeMap<&'a str, usize>,
}

impl<'a> Model for NamedReceivers<'a> {
    ghost use Rattle.std.specs.Prelude.{◌≡◌, false, List};
    ghost use Rattle.am_draft.specs.declared.receiver.ReceiverDraft.{ReceiverDraft};
    ghost use Rattle.am_config.specs.Checks.{is_repeated};
    ghost use Rattle.am_config.specs.Places.{HasPlaces};

    ghost Value = { List ReceiverDraft };

    ghost view = { λ named. named.receivers.now };

    ghost invariant = { λ named. (is_repeated named.receivers.now ≡ false) × HasPlaces named.receivers.now named.places };
}

impl<'a> NamedReceivers<'a> {
    /// The receivers; none where two have one name.
    pub(crate) fn new(
        alloc: Global,
        receivers: &'a [ReceiverDraft],
    ) -> Result<Option<NamedReceivers<'a>>, AllocError>
        ensures apart { IfOk result (λ found. is_some found ≡ not (is_repeated receivers.now)) }
        ensures receivers { IfOk result (λ found. IfSome found (λ named. named ≡ receivers.now)) }
    {
        let mut places = BTreeMap::new(alloc);
        for (place, receiver) in receivers.iter().enumerate() {
            if places.insert(receiver.name.as_str(), place)?.is_some() {
                return Ok(None);
            }
        }
        Ok(Some(NamedReceivers { receivers, places }))
    }

    /// The place of the receiver of this name in the list.
    pub(crate) fn place(&self, name: &str) -> Option<usize>
        ensures { result ≡ place self.now name.now }
    {
        self.places.get(name).copied()
    }
}
