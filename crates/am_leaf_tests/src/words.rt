//! Identifiers of silences that are held are drawn again.

use am_expect::{equal, holds};
use am_item::{Held, Item, Matchers, SharedItem, Silence, SilenceId, Stamp, Thing};
use am_tenant::TenantName;
use am_text::{Moment, Text};
use am_words::{ID_LENGTH, MOST_DRAWS, Place, Words, WordsRefusal, print_id};
use std::alloc::{AllocError, Global};
use std::test::Fail;

fn draws(words: &mut Words, held: &Held, wanted: &str) -> Result<(), Fail> {
    let id = words.draw_id(held)?;
    equal(print_id(&id, &mut [0; ID_LENGTH]), wanted, "an identifier")
}

// The words of one tenant from a place on.
fn words_from(place: Place) -> Result<Words, Fail> {
    Ok(Words::new(&[0; 32], &TenantName::read(b"a")?, 1, 1, place))
}

fn silence(alloc: Global, id: SilenceId) -> Result<SharedItem, AllocError> {
    let moment = Moment::greatest();
    let stamp = Stamp {
        moment,
        instance: 1,
        incarnation: 1,
        count: 1,
    };
    let thing = Thing::Silence(Silence {
        id,
        starts_at: moment,
        ends_at: moment,
        kept_until: moment,
        created_by: Text::read(alloc, "")?,
        comment: Text::read(alloc, "")?,
        matchers: Matchers::from_vec(Vec::new(alloc)),
    });
    SharedItem::new(alloc, Item { stamp, thing })
}

// Holds a silence of the first identifier that isn't held.
fn hold_next(alloc: Global, held: &mut Held) -> Result<(), Fail> {
    let id = words_from(Place::first())?.draw_id(held)?;
    match held.put(silence(alloc, id)?) {
        Ok(_) => Ok(()),
        Err(refused) => Err(refused.into()),
    }
}

#[test]
fn held_ones_are_drawn_again(rt: HostRuntime) -> Result<(), Fail> {
    let mut held = Held::new(rt.alloc())?;
    for _ in 0..MOST_DRAWS {
        hold_next(rt.alloc(), &mut held)?;
    }
    let mut words = words_from(Place::first())?;
    holds(
        words.draw_id(&held) == Err(WordsRefusal::NoIdentifier),
        "all are held",
    )?;
    draws(&mut words, &held, "0c78c053-9c67-4552-a8b5-a44635c32ddd")
}
