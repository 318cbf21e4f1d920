//! What is read off the items that are held of a tenant.

ghost use Rattle.std.specs.Prelude.{◌≡◌, IfOk, filter, map};
ghost use Rattle.am_alert.specs.Held.{AreRising, fires, firing, seen};
ghost use Rattle.am_alert.specs.HeldAlert.{all_held, held_alert};

use am_item::{AlertDetails, Held, SharedMap, Stamped};
use am_labels::LabelSet;
use am_text::Moment;
use std::alloc::{AllocError, Global};
use std::marker::Model;

/// An alert that is held, borrowed.
#[derive(Drop)]
pub struct HeldAlert<'a> {
    /// What identifies the alert.
    pub labels: &'a LabelSet,
    /// What else the alert is, and its stamp.
    pub details: &'a Stamped<AlertDetails>,
}

/// The alerts that are held of one tenant.
#[derive(Drop)]
pub struct AlertBook<'a> {
    held: &'a Held,
}

impl<'a> Model for AlertBook<'a> {
    ghost use Rattle.std.specs.Prelude.{List};
    ghost use Rattle.am_item.specs.declared.item.Item.{Item};

    ghost Value = { List Item };

    ghost view = { λ b. b.held.now };
}

impl<'a> AlertBook<'a> {
    /// Reads the alerts of what is held.
    pub fn new(held: &'a Held) -> AlertBook<'a>
        ensures { result ≡ held.now }
    {
        AlertBook { held }
    }

    /// The stamp moment of the alert with this label set, where there is one.
    pub fn seen(&self, labels: &LabelSet) -> Option<Moment>
        ensures { result ≡ seen labels.now self.now }
    {
        self.held
            .alerts()
            .get(labels)
            .map(|alert| alert.stamp.moment)
    }

    /// The alerts that end after the moment, in the order of label sets.
    pub fn firing(&self, alloc: Global, moment: Moment) -> Result<Vec<HeldAlert<'a>>, AllocError>
        ensures firing { IfOk result (λ v. map held_alert v.items ≡ firing moment self.now) }
        ensures rising { IfOk result (λ v. AreRising (map held_alert v.items)) }
    {
        let firing = firing_among(alloc, self.held.alerts(), moment)?;
        Ok(firing)
    }
}

// The alerts that end after the moment, in their order.
fn firing_among<'a>(
    alloc: Global,
    alerts: &'a SharedMap<LabelSet, AlertDetails>,
    moment: Moment,
) -> Result<Vec<HeldAlert<'a>>, AllocError>
    ensures firing { IfOk result (λ v. map held_alert v.items ≡ filter (λ alert. fires moment alert) (all_held alerts.now)) }
    ensures rising { IfOk result (λ v. AreRising (map held_alert v.items)) }
{
    let mut firing = Vec::new(alloc);
    for kept in alerts.entries() {
        if moment < kept.value().value.ends_at {
            firing.push(HeldAlert {
                labels: kept.key(),
                details: kept.value(),
            })?;
        }
    }
    Ok(firing)
}
