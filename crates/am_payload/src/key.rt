//! The keys of groups.

ghost use Rattle.std.specs.Prelude.{◌≡◌, ◌++◌, IfOk, OnOk, string_bytes};
ghost use Rattle.std.specs.List.Sorted.{IsStrictlySortedBy};
ghost use Rattle.serde_json.specs.Written.{compact_text};
ghost use Rattle.am_labels.specs.Labels.{name_cmp};
ghost use Rattle.am_json.specs.Written.{data_tokens, labels_data};
ghost use Rattle.am_payload.specs.Webhook.{group_key};

use am_labels::{Label, LabelSet};
use am_text::Text;
use json::Writer;
use std::alloc::{AllocError, Global};

/// The key of a group under which it is told: the number of its route, then its labels as JSON.
#[tactic(auto, unfolding(crate::specs::Webhook::group_key))]
pub fn group_key(alloc: Global, route: usize, labels: &LabelSet) -> Result<Text, AllocError>
    ensures { IfOk result (λ key. key ≡ group_key route labels.now) }
{
    let mut key = format!(in alloc; "{route}")?;
    key.push_str(labels_text(alloc, labels.labels())?.as_str())?;
    Ok(Text::from_string(key))
}

// The JSON object of labels in order of name.
fn labels_text(alloc: Global, labels: &[Label]) -> Result<String, AllocError>
    requires { IsStrictlySortedBy name_cmp labels.now }
    ensures { IfOk result (λ text. string_bytes text ≡ compact_text (labels_data labels.now)) }
{
    let mut writer = Writer::new(Vec::new(alloc));
    put_labels(&mut writer, labels)?;
    match String::from_utf8(writer.into_inner()) {
        Ok(text) => Ok(text),
        Err(_) => unreachable!(),
    }
}

fn put_labels(writer: &mut Writer, labels: &[Label]) -> Result<(), AllocError>
    requires { IsStrictlySortedBy name_cmp labels.now }
    ensures before { writer.new.before ≡ writer.old.before }
    ensures tokens { OnOk result (writer.new.tokens ≡ writer.old.tokens ++ data_tokens (labels_data labels.now)) }
{
    writer.begin_object()?;
    for label in labels {
        writer.key(label.name.as_str())?;
        writer.string(label.value.as_str())?;
    }
    writer.end_object()
}
