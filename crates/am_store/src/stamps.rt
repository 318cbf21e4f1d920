//! Stamps in columns.

ghost use Rattle.std.specs.Prelude.{◌≡◌, ◌≤◌, ℕ, All, IfOk, pos};
ghost use Rattle.sqlite.specs.Order.{column};
ghost use Rattle.sqlite.specs.declared.types.Value.TheVariants.{Int};
ghost use Rattle.std.specs.List.{list_any};
ghost use Rattle.am_text.specs.Moment.{greatest_moment};
ghost use Rattle.am_item.specs.declared.stamp.Stamp.{Stamp as StampText};
ghost use Rattle.am_store.specs.Reading.{GivesColumn, HasStamp, IsStamped, reached};

use am_item::Stamp;
use am_text::Moment;
use sqlite::{Error, Row};

// The stamp whose four columns begin at this place.
pub(crate) fn stamp_of(row: &Row, at: usize) -> Result<Stamp, Error>
    requires { at ≤ 9 }
    ensures stamp { IfOk result (HasStamp row.now at) }
    ensures given { (s : StampText) → HasStamp row.now at s → GivesColumn result }
{
    let moment = moment_of(row, at)?;
    let Ok(instance) = u8::try_from(row.get::<u32>(at + 1)?) else {
        return Err(Error::IntegralValueOutOfRange(at + 1));
    };
    let stamp = Stamp {
        moment,
        instance,
        incarnation: row.get(at + 2)?,
        count: row.get(at + 3)?,
    };
    if stamp.instance < 1 || stamp.instance > 8 || stamp.count > am_item::GREATEST_COUNT {
        return Err(Error::IntegralValueOutOfRange(at));
    }
    Ok(stamp)
}

// The moment in a column.
pub(crate) fn moment_of(row: &Row, at: usize) -> Result<Moment, Error>
    ensures value { IfOk result (λ moment. column row.now at ≡ Int (pos moment)) }
    ensures bound { IfOk result (λ moment. moment ≤ greatest_moment) }
    ensures given { (m : ℕ) → column row.now at ≡ Int (pos m) → m ≤ greatest_moment → GivesColumn result }
{
    match Moment::from_milliseconds(row.get(at)?) {
        Some(moment) => Ok(moment),
        None => Err(Error::IntegralValueOutOfRange(at)),
    }
}

// Whether one of the stamps, each a row of four columns, isn't exceeded by this one.
pub(crate) fn is_reached(rows: &[Row], stamp: &Stamp) -> Result<bool, Error>
    ensures reached { IfOk result (λ is_reached. is_reached ≡ list_any (reached stamp.now) rows.now) }
    ensures given { All IsStamped rows.now → GivesColumn result }
{
    for row in rows {
        if !stamp.exceeds(&stamp_of(row, 0)?) {
            return Ok(true);
        }
    }
    Ok(false)
}
