//! Silences that are read, and the reply to one that is posted.

ghost use Rattle.std.specs.Prelude.{◌≡◌, ◌++◌, IfOk, OnOk, codes, map};
ghost use Rattle.serde_json.specs.Data.{boolean, string};
ghost use Rattle.am_json.specs.Written.{data_tokens, member_tokens};
ghost use Rattle.am_silence.specs.Held.{held_silence};
ghost use Rattle.am_silence.specs.Silences.{details_of, state_of};
ghost use Rattle.am_words.specs.Ids.{id_text};
ghost use Rattle.am_payload.specs.Silences.{matcher_data, matchers_data, posted_data, posted_text, silence_data, silence_text, silences_data, silences_text, state_data, state_name, takes_equal};

use crate::members::string_member;
use am_item::{SilenceDetails, SilenceId};
use am_json::JsonWriter;
use am_match::{Matcher, Operator};
use am_silence::{HeldSilence, SilenceState};
use am_text::{Moment, Octets};
use am_words::{ID_LENGTH, print_id};
use std::alloc::{AllocError, Global};

/// The JSON of a silence, with its state at the moment.
pub fn silence_json(
    alloc: Global,
    silence: &HeldSilence<'_>,
    moment: Moment,
) -> Result<Octets, AllocError>
    ensures { IfOk result (λ o. o ≡ silence_text moment (held_silence silence.now)) }
{
    let mut text = JsonWriter::new(alloc);
    put_silence(&mut text, silence, moment)?;
    Ok(text.finish())
}

/// The JSON list of silences, in their order, each with its state at the moment.
pub fn silences_json(
    alloc: Global,
    silences: &[HeldSilence<'_>],
    moment: Moment,
) -> Result<Octets, AllocError>
    ensures { IfOk result (λ o. o ≡ silences_text moment (map held_silence silences.now)) }
{
    let mut text = JsonWriter::new(alloc);
    put_silences(&mut text, silences, moment)?;
    Ok(text.finish())
}

/// The JSON that a post of a silence is answered: its identifier.
pub fn posted_json(alloc: Global, id: &SilenceId) -> Result<Octets, AllocError>
    ensures { IfOk result (λ o. o ≡ posted_text id.now) }
{
    let mut text = JsonWriter::new(alloc);
    put_posted(&mut text, id)?;
    Ok(text.finish())
}

fn put_posted(text: &mut JsonWriter, id: &SilenceId) -> Result<(), AllocError>
    ensures { OnOk result (text.new ≡ text.old ++ data_tokens (posted_data id.now)) }
{
    text.begin_object()?;
    id_member(text, "silenceID", id)?;
    text.end_object()
}

fn put_silences(
    text: &mut JsonWriter,
    silences: &[HeldSilence<'_>],
    moment: Moment,
) -> Result<(), AllocError>
    ensures { OnOk result (text.new ≡ text.old ++ data_tokens (silences_data moment (map held_silence silences.now))) }
{
    text.begin_array()?;
    for silence in silences {
        put_silence(text, silence, moment)?;
    }
    text.end_array()
}

fn put_silence(
    text: &mut JsonWriter,
    silence: &HeldSilence<'_>,
    moment: Moment,
) -> Result<(), AllocError>
    ensures { OnOk result (text.new ≡ text.old ++ data_tokens (silence_data moment (held_silence silence.now))) }
{
    let details = &silence.held.value;
    text.begin_object()?;
    text.text_member("comment", &details.comment)?;
    text.text_member("createdBy", &details.created_by)?;
    text.moment_member("endsAt", details.ends_at)?;
    id_member(text, "id", silence.id)?;
    matchers_member(text, details)?;
    text.moment_member("startsAt", details.starts_at)?;
    status_member(text, details, moment)?;
    text.moment_member("updatedAt", silence.held.stamp.moment)?;
    text.end_object()
}

fn matchers_member(text: &mut JsonWriter, silence: &SilenceDetails) -> Result<(), AllocError>
    ensures { OnOk result (text.new ≡ text.old ++ member_tokens (codes "matchers") (matchers_data silence.now.matchers)) }
{
    text.key("matchers")?;
    put_matchers(text, silence.matchers.as_slice())
}

fn put_matchers(text: &mut JsonWriter, matchers: &[Matcher]) -> Result<(), AllocError>
    ensures { OnOk result (text.new ≡ text.old ++ data_tokens (matchers_data matchers.now)) }
{
    text.begin_array()?;
    for matcher in matchers {
        put_matcher(text, matcher)?;
    }
    text.end_array()
}

fn put_matcher(text: &mut JsonWriter, matcher: &Matcher) -> Result<(), AllocError>
    ensures { OnOk result (text.new ≡ text.old ++ data_tokens (matcher_data matcher.now)) }
{
    let operator = matcher.operator();
    text.begin_object()?;
    flag_member(text, "isEqual", takes_equal(operator))?;
    flag_member(text, "isRegex", operator.is_on_pattern())?;
    string_member(text, "name", matcher.name())?;
    string_member(text, "value", matcher.value())?;
    text.end_object()
}

// Whether the operator takes what is equal or matches, and not what isn't or doesn't.
fn takes_equal(operator: Operator) -> bool
    ensures { result ≡ takes_equal operator }
{
    matches!(operator, Operator::Equal | Operator::Match)
}

fn flag_member(text: &mut JsonWriter, name: &str, flag: bool) -> Result<(), AllocError>
    ensures { OnOk result (text.new ≡ text.old ++ member_tokens name.now (boolean flag)) }
{
    text.key(name)?;
    text.boolean(flag)
}

// A member whose value is the text of an identifier.
fn id_member(text: &mut JsonWriter, name: &str, id: &SilenceId) -> Result<(), AllocError>
    ensures { OnOk result (text.new ≡ text.old ++ member_tokens name.now (string (id_text id.now))) }
{
    let mut buffer = [0; ID_LENGTH];
    string_member(text, name, print_id(id, &mut buffer))
}

// The state of a silence at a moment.
fn status_member(
    text: &mut JsonWriter,
    silence: &SilenceDetails,
    moment: Moment,
) -> Result<(), AllocError>
    ensures { OnOk result (text.new ≡ text.old ++ member_tokens (codes "status") (state_data (state_of moment (details_of silence.now)))) }
{
    let state = SilenceState::at(moment, silence.starts_at, silence.ends_at);
    text.key("status")?;
    text.begin_object()?;
    string_member(text, "state", state_name(state))?;
    text.end_object()
}

fn state_name(state: SilenceState) -> &'static str
    ensures { result.now ≡ state_name state }
{
    match state {
        SilenceState::Pending => "pending",
        SilenceState::Active => "active",
        SilenceState::Expired => "expired",
    }
}
