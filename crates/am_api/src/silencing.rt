//! Silences that are stored: what a post changes, and the items of it.

ghost use Rattle.std.specs.Prelude.{◌≡◌, nat_lt, map, None};
ghost use Rattle.am_text.specs.Outcome.{Gives};
ghost use Rattle.am_alert.specs.Made.{MakesItems};
ghost use Rattle.am_silence.specs.Changing.{changed_of, write_of};
ghost use Rattle.am_silence.specs.Posted.{posted_of};
ghost use Rattle.am_api.specs.Deciding.{Decides};
ghost use Rattle.am_api.specs.Silences.{change_by, change_stored, change_within, changed_or_refused, count_with};
ghost use Rattle.am_api.specs.Silences.{id_given, identified, is_one_more, silence_items};

use crate::decision::{Decided, refuse, store};
use crate::silences::refuse_for;
use am_alert::Maker;
use am_item::{Fault, GREATEST_COUNT, Held, Item, SilenceId, Stamp, Thing};
use am_payload::posted_json;
use am_silence::{Change, PostedSilence, SilenceBook, SilenceRefusal, SilenceWrite};
use am_text::{Failure, Moment, Text};
use am_words::{Words, read_id};
use std::alloc::Global;

/// A posted silence, or what it changes, is stored, unless it names one that isn't held. No more silences may then not
/// have expired than `limit`.
pub(crate) fn store_posted(
    alloc: Global,
    posted: PostedSilence,
    held: &Held,
    limit: u64,
    moment: Moment,
    maker: Maker,
    words: Words,
) -> Result<Decided, Fault>
    ensures { Decides result (changed_or_refused limit held.now moment maker words
        (change_by held.now moment (posted_of posted))) }
{
    match change_by(alloc, held, posted, moment) {
        Ok(change) => store_within(alloc, change, held, limit, moment, maker, words),
        Err(Failure::Refused(reason)) => refuse_for(alloc, reason),
        Err(Failure::OutOfMemory) => Err(Fault::OutOfMemory),
    }
}

// What a posted silence changes, where it may name one by its text.
#[tactic(auto, unfolding(crate::specs::Silences::change_by))]
fn change_by(
    alloc: Global,
    held: &Held,
    posted: PostedSilence,
    moment: Moment,
) -> Result<Change, Failure<SilenceRefusal>>
    ensures { Gives changed_of result (change_by held.now moment (posted_of posted)) }
{
    let id = id_given(&posted.id)?;
    SilenceBook::new(held).change(alloc, id, posted, moment)
}

// The identifier that a text is, where one is given.
fn id_given(text: &Option<Text>) -> Result<Option<SilenceId>, Failure<SilenceRefusal>>
    ensures { Gives (λ id. id) result (id_given text.now) }
{
    match text {
        None => Ok(None),
        Some(text) => match read_id(text.as_str()) {
            None => Err(Failure::Refused(SilenceRefusal::Unknown)),
            Some(id) => Ok(Some(id)),
        },
    }
}

// Stores a change, unless more silences would then not have expired than the limit says.
fn store_within(
    alloc: Global,
    change: Change,
    held: &Held,
    limit: u64,
    moment: Moment,
    maker: Maker,
    words: Words,
) -> Result<Decided, Fault>
    ensures { Decides result (change_within limit held.now moment maker words (changed_of change)) }
{
    if is_past(limit, held, &change, moment) {
        return refuse(alloc, 429, "Li2");
    }
    match change.id {
        None => store_new(alloc, change, held, maker, words),
        Some(id) => store_change(alloc, change, id, maker),
    }
}

// Whether more silences than the limit would not have expired once the change has come.
fn is_past(limit: u64, held: &Held, change: &Change, moment: Moment) -> bool
    ensures { result ≡ nat_lt limit (count_with moment held.now (changed_of change.now)) }
{
    let unexpired = SilenceBook::new(held).unexpired(moment) as u64;
    if is_one_more(change) {
        limit <= unexpired
    } else {
        limit < unexpired
    }
}

// Whether it is a new silence, and none expires for it.
fn is_one_more(change: &Change) -> bool
    ensures { result ≡ is_one_more (changed_of change.now) }
{
    change.expired.is_none() && change.id.is_none()
}

// Stores a change with a new silence, which has an identifier that is drawn.
fn store_new(
    alloc: Global,
    change: Change,
    held: &Held,
    maker: Maker,
    mut words: Words,
) -> Result<Decided, Fault>
    ensures { Decides result (identified held.now maker words (changed_of change) None) }
{
    let mut decided = match words.draw_id(held) {
        Ok(id) => store_change(alloc, change, id, maker)?,
        Err(reason) => refuse(alloc, 503, reason.code())?,
    };
    decided.drawn = Some(words.place());
    Ok(decided)
}

// Stores a change; a new silence has this identifier.
fn store_change(
    alloc: Global,
    change: Change,
    id: SilenceId,
    maker: Maker,
) -> Result<Decided, Fault>
    ensures { Decides result (change_stored maker (changed_of change) id) }
{
    let body = posted_json(alloc, &id)?;
    let writes = change.into_writes(alloc, id)?;
    let items = items_of(alloc, writes, maker)?;
    Ok(store(items, 200, body))
}

/// The items of silences that are stored, with one count after the other.
#[tactic(auto, unfolding(crate::specs::Silences::silence_items))]
pub(crate) fn items_of(
    alloc: Global,
    writes: Vec<SilenceWrite>,
    maker: Maker,
) -> Result<Vec<Item>, Fault>
    ensures { MakesItems result (silence_items maker (map write_of writes.items)) }
{
    let mut items = Vec::with_capacity(alloc, writes.len())?;
    let mut used = maker.used;
    for write in writes {
        if used >= GREATEST_COUNT {
            return Err(Fault::CountsExhausted);
        }
        used += 1;
        let stamp = Stamp {
            moment: write.moment,
            instance: maker.instance,
            incarnation: maker.incarnation,
            count: used,
        };
        items.push(Item {
            stamp,
            thing: Thing::Silence(write.silence),
        })?;
    }
    Ok(items)
}
