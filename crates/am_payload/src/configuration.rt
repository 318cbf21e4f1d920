//! A stored configuration.

ghost use Rattle.std.specs.Prelude.{◌≡◌, ◌++◌, IfOk, OnOk};
ghost use Rattle.am_json.specs.Written.{data_tokens};
ghost use Rattle.am_payload.specs.Written.{document_data, document_text};

use am_json::JsonWriter;
use am_text::{Octets, Text};
use std::alloc::{AllocError, Global};

/// The JSON of a stored configuration, as it is posted: its text within a document.
pub fn document_json(alloc: Global, config: &Text) -> Result<Octets, AllocError>
    ensures { IfOk result (λ o. o ≡ document_text config.now) }
{
    let mut text = JsonWriter::new(alloc);
    put_document(&mut text, config)?;
    Ok(text.finish())
}

fn put_document(text: &mut JsonWriter, config: &Text) -> Result<(), AllocError>
    ensures { OnOk result (text.new ≡ text.old ++ data_tokens (document_data config.now)) }
{
    text.begin_object()?;
    text.text_member("alertmanager_config", config)?;
    text.key("template_files")?;
    text.begin_object()?;
    text.end_object()?;
    text.end_object()
}
