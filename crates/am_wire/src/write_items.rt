//! Writing items.

ghost use Rattle.std.specs.Prelude.{◌≡◌, ◌++◌, All, IfErr, IfSome, IsUtf8, OnOk, map};
ghost use Rattle.std.specs.List.{flat_map};
ghost use Rattle.am_item.specs.Held.{alert_of, entry_of, silence_of};
ghost use Rattle.am_item.specs.Shared.{thing_in};
ghost use Rattle.am_match.specs.Matchers.{IsMatcher};
ghost use Rattle.am_match.specs.Spelling.{operator_number};
ghost use Rattle.am_wire.specs.ItemFields.{AreMatchers, IsAlert, IsEntry, IsItem, IsSilence, IsStamp, IsThing, alert_bytes, configuration_bytes, entry_bytes, item_bytes, items_bytes, matcher_bytes, matchers_bytes, silence_bytes, stamp_bytes, thing_bytes};
ghost use Rattle.am_wire.specs.Refusals.{IsBadBy};

use crate::kinds::thing_number;
use crate::refusal::EncodeRefusal;
use crate::write_fields::{push_few, push_length, push_moment, push_str, push_u32, push_u64};
use crate::write_labels::{push_annotations, push_label_set, push_label_sets};
use am_item::{
    AlertDetails, EntryDetails, EntryKey, Part, SharedItem, SilenceDetails, SilenceId, Stamp,
};
use am_labels::LabelSet;
use am_match::{Matcher, Operator};
use am_ring::Instance;
use am_text::{Failure, Text};
use std::alloc::AllocError;

#[tactic(auto, unfolding(crate::specs::ItemFields::matcher_bytes))]
fn push_matcher(out: &mut Vec<u8>, matcher: &Matcher) -> Result<(), AllocError>
    ensures bytes { OnOk result (out.new.items ≡ out.old.items ++ matcher_bytes matcher.now) }
    ensures valid { OnOk result (IsMatcher matcher.now) }
{
    let number = match matcher.operator() {
        Operator::Equal => 0,
        Operator::NotEqual => 1,
        Operator::Match => 2,
        Operator::NotMatch => 3,
    };
    out.push(number)?;
    push_str(out, matcher.name())?;
    push_str(out, matcher.value())
}

fn push_several(out: &mut Vec<u8>, matchers: &[Matcher]) -> Result<(), AllocError>
    ensures bytes { OnOk result (out.new.items ≡ out.old.items ++ flat_map matcher_bytes matchers.now) }
    ensures valid { OnOk result (All IsMatcher matchers.now) }
{
    for matcher in matchers {
        push_matcher(out, matcher)?;
    }
    Ok(())
}

#[tactic(auto, unfolding(crate::specs::ItemFields::matchers_bytes))]
fn push_matchers(out: &mut Vec<u8>, matchers: &[Matcher]) -> Result<(), Failure<EncodeRefusal>>
    ensures bytes { OnOk result (out.new.items ≡ out.old.items ++ matchers_bytes matchers.now) }
    ensures valid { OnOk result (AreMatchers matchers.now) }
    ensures refused { IfErr result (IsBadBy (¬ AreMatchers matchers.now)) }
{
    push_few(out, matchers.len())?;
    push_several(out, matchers)?;
    Ok(())
}

#[tactic(auto, unfolding(crate::specs::ItemFields::stamp_bytes))]
fn push_stamp(out: &mut Vec<u8>, stamp: &Stamp) -> Result<(), Failure<EncodeRefusal>>
    ensures bytes { OnOk result (out.new.items ≡ out.old.items ++ stamp_bytes stamp.now) }
    ensures valid { OnOk result (IsStamp stamp.now) }
    ensures refused { IfErr result (IsBadBy (¬ IsStamp stamp.now)) }
{
    let Some(instance) = Instance::new(stamp.instance) else {
        return Err(Failure::Refused(EncodeRefusal::BadItem));
    };
    push_moment(out, stamp.moment)?;
    out.push(instance.number())?;
    push_u32(out, stamp.incarnation)?;
    push_u64(out, stamp.count)?;
    Ok(())
}

#[tactic(auto, unfolding(crate::specs::ItemFields::configuration_bytes))]
fn push_configuration(out: &mut Vec<u8>, text: &Option<Text>) -> Result<(), AllocError>
    ensures bytes { OnOk result (out.new.items ≡ out.old.items ++ configuration_bytes text.now) }
    ensures valid { OnOk result (IfSome text.now IsUtf8) }
{
    match text {
        None => out.push(0)?,
        Some(text) => {
            out.push(1)?;
            push_str(out, text.as_str())?;
        }
    }
    Ok(())
}

#[tactic(auto, unfolding(crate::specs::ItemFields::silence_bytes))]
fn push_silence(
    out: &mut Vec<u8>,
    id: &SilenceId,
    silence: &SilenceDetails,
) -> Result<(), Failure<EncodeRefusal>>
    ensures bytes { OnOk result (out.new.items ≡ out.old.items ++ silence_bytes (silence_of id.now silence.now)) }
    ensures valid { OnOk result (IsSilence (silence_of id.now silence.now)) }
    ensures refused { IfErr result (IsBadBy (¬ IsSilence (silence_of id.now silence.now))) }
{
    out.extend_from_slice(id.as_bytes())?;
    push_moment(out, silence.starts_at)?;
    push_moment(out, silence.ends_at)?;
    push_moment(out, silence.kept_until)?;
    push_str(out, silence.created_by.as_str())?;
    push_str(out, silence.comment.as_str())?;
    push_matchers(out, silence.matchers.as_slice())?;
    Ok(())
}

#[tactic(auto, unfolding(crate::specs::ItemFields::alert_bytes))]
fn push_alert(
    out: &mut Vec<u8>,
    labels: &LabelSet,
    alert: &AlertDetails,
) -> Result<(), Failure<EncodeRefusal>>
    ensures bytes { OnOk result (out.new.items ≡ out.old.items ++ alert_bytes (alert_of labels.now alert.now)) }
    ensures valid { OnOk result (IsAlert (alert_of labels.now alert.now)) }
    ensures refused { IfErr result (IsBadBy (¬ IsAlert (alert_of labels.now alert.now))) }
{
    push_label_set(out, labels)?;
    push_annotations(out, &alert.annotations)?;
    push_moment(out, alert.starts_at)?;
    push_moment(out, alert.ends_at)?;
    push_str(out, alert.generator_url.as_str())?;
    Ok(())
}

#[tactic(auto, unfolding(crate::specs::ItemFields::entry_bytes))]
fn push_entry(
    out: &mut Vec<u8>,
    key: &EntryKey,
    entry: &EntryDetails,
) -> Result<(), Failure<EncodeRefusal>>
    ensures bytes { OnOk result (out.new.items ≡ out.old.items ++ entry_bytes (entry_of key.now entry.now)) }
    ensures valid { OnOk result (IsEntry (entry_of key.now entry.now)) }
    ensures refused { IfErr result (IsBadBy (¬ IsEntry (entry_of key.now entry.now))) }
{
    push_str(out, key.receiver.as_str())?;
    push_str(out, key.group.as_str())?;
    out.push(key.webhook)?;
    push_moment(out, entry.ends_at)?;
    push_label_sets(out, &entry.firing)?;
    push_label_sets(out, &entry.resolved)?;
    Ok(())
}

#[tactic(auto, unfolding(am_item::specs::Shared::thing_in))]
fn push_part(out: &mut Vec<u8>, part: &Part<'_>) -> Result<(), Failure<EncodeRefusal>>
    ensures bytes { OnOk result (out.new.items ≡ out.old.items ++ thing_bytes (thing_in part.now)) }
    ensures valid { OnOk result (IsThing (thing_in part.now)) }
    ensures refused { IfErr result (IsBadBy (¬ IsThing (thing_in part.now))) }
{
    match part {
        Part::Configuration(text) => push_configuration(out, text)?,
        Part::Silence(id, silence) => push_silence(out, id, silence)?,
        Part::Alert(labels, alert) => push_alert(out, labels, alert)?,
        Part::SentEntry(key, entry) => push_entry(out, key, entry)?,
    }
    Ok(())
}

#[tactic(auto, unfolding(crate::specs::ItemFields::item_bytes))]
fn push_item(out: &mut Vec<u8>, item: &SharedItem) -> Result<(), Failure<EncodeRefusal>>
    ensures bytes { OnOk result (out.new.items ≡ out.old.items ++ item_bytes item.now) }
    ensures valid { OnOk result (IsItem item.now) }
    ensures refused { IfErr result (IsBadBy (¬ IsItem item.now)) }
{
    let part = item.part();
    out.push(thing_number(&part))?;
    push_stamp(out, item.stamp())?;
    push_part(out, &part)?;
    Ok(())
}

fn push_all(out: &mut Vec<u8>, items: &[SharedItem]) -> Result<(), Failure<EncodeRefusal>>
    ensures bytes { OnOk result (out.new.items ≡ out.old.items ++ flat_map item_bytes items.now) }
    ensures valid { OnOk result (All IsItem items.now) }
    ensures refused { IfErr result (IsBadBy (¬ All IsItem items.now)) }
{
    for item in items {
        push_item(out, item)?;
    }
    Ok(())
}

/// Items.
#[tactic(auto, unfolding(crate::specs::ItemFields::items_bytes))]
pub fn push_items(out: &mut Vec<u8>, items: &[SharedItem]) -> Result<(), Failure<EncodeRefusal>>
    ensures bytes { OnOk result (out.new.items ≡ out.old.items ++ items_bytes items.now) }
    ensures valid { OnOk result (All IsItem items.now) }
    ensures refused { IfErr result (IsBadBy (¬ All IsItem items.now)) }
{
    push_length(out, items.len())?;
    push_all(out, items)?;
    Ok(())
}
