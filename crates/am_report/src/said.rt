//! What the words of a line stand for: instances, messages and changes of the cluster.
ghost use Rattle.std.specs.Prelude.{◌≡◌, Some, None, if◌then◌else◌};
ghost use Rattle.am_ring.specs.Instances.{all_instances, is_among};
ghost use Rattle.am_report.specs.Said.{event_of, instance_of, name_said};

use am_event::Event;
use am_messages::MessageName;
use am_ring::Instance;
use am_scenario::{ClusterChange, SaidName};

/// A change of the cluster, as an event.
pub fn event_of(change: &ClusterChange) -> Event
    ensures { result ≡ event_of change.now }
{
    match change {
        ClusterChange::Join(number) => Event::Join {
            instance: instance_of(*number),
        },
        ClusterChange::Leave(number) => Event::Leave {
            instance: instance_of(*number),
        },
        ClusterChange::Crash(number) => Event::Crash {
            instance: instance_of(*number),
        },
        ClusterChange::Restart(number) => Event::Restart {
            instance: instance_of(*number),
        },
        ClusterChange::Learn(number) => Event::Learn {
            instance: instance_of(*number),
        },
        ClusterChange::Force(tenant) => Event::Force { tenant: *tenant },
    }
}

/// The number of an instance as the world takes it: none past 255 is in any ring.
pub fn instance_of(number: u64) -> u8
    ensures { result ≡ instance_of number }
{
    number.min(u64::from(u8::MAX)) as u8
}

/// The name that a line says; where a number is out of range one that no message has, since these are counted from 1
/// on.
pub fn name_said(said: &SaidName) -> MessageName
    ensures { result ≡ name_said said.now }
{
    let tenant = said.tenant;
    let count = said.count;
    if let (Some(from), Some(to)) = (instance(said.from), instance(said.to)) {
        if let Ok(incarnation) = u32::try_from(said.incarnation) {
            return MessageName {
                tenant,
                from,
                incarnation,
                to,
                count,
            };
        }
    }
    MessageName {
        tenant,
        from: Instance::new(1).unwrap(),
        incarnation: 0,
        to: Instance::new(1).unwrap(),
        count: 0,
    }
}

/// The instance of a number, where it is one.
fn instance(number: u64) -> Option<Instance>
    ensures { result ≡ (if is_among number all_instances then Some number else None) }
{
    match u8::try_from(number) {
        Ok(number) => Instance::new(number),
        Err(_) => None,
    }
}
