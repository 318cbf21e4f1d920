//! Receivers, by their names.

ghost use Rattle.std.specs.Prelude.{◌≡◌, ◌++◌, IfOk, OnOk};
ghost use Rattle.std.specs.Option.{option_copied};
ghost use Rattle.am_json.specs.Written.{data_tokens};
ghost use Rattle.am_payload.specs.Receivers.{name_at, names_at, names_of};
ghost use Rattle.am_payload.specs.Written.{receiver_data, receivers_data, receivers_text};

use am_config::Config;
use am_json::JsonWriter;
use am_text::{Listed, Octets, Text};
use std::alloc::{AllocError, Global};

/// The JSON list of the receivers of a configuration, in its order.
pub fn receivers_json(alloc: Global, config: &Config) -> Result<Octets, AllocError>
    ensures { IfOk result (λ o. o ≡ receivers_text config.now) }
{
    let mut text = JsonWriter::new(alloc);
    put_receivers(&mut text, config)?;
    Ok(text.finish())
}

fn put_receivers(text: &mut JsonWriter, config: &Config) -> Result<(), AllocError>
    ensures { OnOk result (text.new ≡ text.old ++ data_tokens (receivers_data (names_of config.now))) }
{
    let receivers = config.receivers();
    text.begin_array()?;
    for receiver in receivers {
        put_receiver(text, &receiver.name)?;
    }
    text.end_array()
}

/// Writes a receiver.
pub(crate) fn put_receiver(text: &mut JsonWriter, name: &Text) -> Result<(), AllocError>
    ensures { OnOk result (text.new ≡ text.old ++ data_tokens (receiver_data name.now)) }
{
    text.begin_object()?;
    text.text_member("name", name)?;
    text.end_object()
}

/// Writes the list of the receivers at these places.
pub(crate) fn put_places(
    text: &mut JsonWriter,
    config: &Config,
    places: &Listed<usize>,
) -> Result<(), AllocError>
    ensures { OnOk result (text.new ≡ text.old ++ data_tokens (receivers_data (names_at config.now places.now))) }
{
    let places = places.as_slice();
    text.begin_array()?;
    for place in places {
        if let Some(name) = name_at(config, *place) {
            put_receiver(text, name)?;
        }
    }
    text.end_array()
}

// The name of the receiver at a place.
fn name_at(config: &Config, place: usize) -> Option<&Text>
    ensures { option_copied result ≡ name_at config.now place }
{
    match config.receivers().get(place) {
        None => None,
        Some(receiver) => Some(&receiver.name),
    }
}
