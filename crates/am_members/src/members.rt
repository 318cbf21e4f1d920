ghost use Rattle.std.specs.Prelude.{◌≡◌, ◌+◌, ◌-◌, ◌<◌, ℕ, IfSome, OnErr, OnOk, [], if◌then◌else◌};
ghost use Rattle.std.specs.BTreeMap.{insert_entry};
ghost use Rattle.std.specs.List.Sorted.{IsStrictlySortedBy};
ghost use Rattle.std.specs.Map.{keys_of, lookup};
ghost use Rattle.am_labels.specs.Labels.{labels_cmp};
ghost use Rattle.am_members.specs.Names.{is_moment, is_set, without};
ghost use Rattle.am_members.specs.Members.{AreNonzero, IsTied, count_at, is_bare, least_of};

use am_labels::LabelSet;
use am_text::Moment;
use std::alloc::{AllocError, Global};
use std::collections::BTreeMap;
use std::marker::Model;

/// The members of a group: label sets in order, each with the moment since which its alert is held.
#[derive(Drop)]
pub struct Members {
    sinces: BTreeMap<LabelSet, Moment>,
    // how many members are held since each moment; none is 0, so the first moment is the least
    counts: BTreeMap<Moment, usize>,
}

impl Model for Members {
    ghost use Rattle.std.specs.Prelude.{ℕ, List};
    ghost use Rattle.am_labels.specs.declared.Label.{Label};

    ghost Value = { List (List Label × ℕ) };

    ghost use Rattle.am_members.specs.Members.{IsTied};

    ghost view = { λ m. m.sinces.entries };

    ghost invariant = { λ m. IsTied m.sinces.entries m.counts.entries };
}

impl Members {
    // No members.
    pub(crate) fn new(alloc: Global) -> Members
        ensures { result ≡ [] }
    {
        Members {
            sinces: BTreeMap::new(alloc),
            counts: BTreeMap::new(alloc),
        }
    }

    /// The least moment since which one of the members is held; `None` where there are none.
    pub fn least_since(&self) -> Option<Moment>
        ensures { result ≡ least_of self.now }
    {
        let (since, _) = self.counts.first_key_value()?;
        Some(*since)
    }

    /// Whether there are no members.
    pub fn is_empty(&self) -> bool
        ensures { result ≡ is_bare self.now }
    {
        self.sinces.is_empty()
    }

    /// The members' label sets in order, each with the moment since which its alert is held.
    pub fn sinces(&self) -> &BTreeMap<LabelSet, Moment>
        ensures sinces { result.now.entries ≡ self.now }
        ensures rising { IsStrictlySortedBy labels_cmp (keys_of self.now) }
    {
        &self.sinces
    }

    // Adds a member, unless it is one since then.
    pub(crate) fn add(&mut self, labels: &LabelSet, since: Moment) -> Result<(), AllocError>
        requires { IfSome (lookup (is_set labels.now) self.old) (λ held. held ≡ since) }
        ensures { OnOk result (self.new ≡ insert_entry labels_cmp self.old labels.now since) }
    {
        add_to(&mut self.sinces, &mut self.counts, labels, since)
    }

    // Removes a member.
    pub(crate) fn remove(&mut self, labels: &LabelSet)
        ensures { self.new ≡ without labels.now self.old }
    {
        remove_from(&mut self.sinces, &mut self.counts, labels);
    }
}

// Adds a member and counts it, or neither. A member since then stays as it is.
fn add_to(
    sinces: &mut BTreeMap<LabelSet, Moment>,
    counts: &mut BTreeMap<Moment, usize>,
    labels: &LabelSet,
    since: Moment,
) -> Result<(), AllocError>
    requires tied { IsTied sinces.old.entries counts.old.entries }
    requires held { IfSome (lookup (is_set labels.now) sinces.old.entries) (λ held. held ≡ since) }
    ensures tied { IsTied sinces.new.entries counts.new.entries }
    ensures added { OnOk result (sinces.new.entries ≡ insert_entry labels_cmp sinces.old.entries labels.now since) }
{
    let own = labels.copy()?;
    if sinces.insert(own, since)?.is_some() {
        return Ok(());
    }
    // no count exceeds how many members there are
    prove!(sinces.len() < usize::MAX);
    match raise_count(counts, since) {
        Ok(()) => Ok(()),
        Err(error) => {
            sinces.remove(labels);
            Err(error)
        }
    }
}

// Counts one member more since this moment. An error, which is out of memory, leaves all counts as they were.
fn raise_count(counts: &mut BTreeMap<Moment, usize>, since: Moment) -> Result<(), AllocError>
    requires { count_at since counts.old.entries < usize.MAX }
    ensures counts { OnOk result ((m : ℕ) → count_at m counts.new.entries ≡ count_at m counts.old.entries + (if is_moment since m then 1 else 0)) }
    ensures nonzero { OnOk result (AreNonzero counts.old.entries → AreNonzero counts.new.entries) }
    ensures err { OnErr result (counts.new.entries ≡ counts.old.entries) }
{
    let count = counts.entry(since)?.or_insert(0);
    *count += 1;
    Ok(())
}

// Removes a member and counts it no longer.
fn remove_from(
    sinces: &mut BTreeMap<LabelSet, Moment>,
    counts: &mut BTreeMap<Moment, usize>,
    labels: &LabelSet,
)
    requires { IsTied sinces.old.entries counts.old.entries }
    ensures tied { IsTied sinces.new.entries counts.new.entries }
    ensures removed { sinces.new.entries ≡ without labels.now sinces.old.entries }
{
    if let Some(since) = sinces.remove(labels) {
        lower_count(counts, since);
    }
}

// Counts one member less since this moment, where any is counted.
fn lower_count(counts: &mut BTreeMap<Moment, usize>, since: Moment)
    ensures counts { (m : ℕ) → count_at m counts.new.entries ≡ count_at m counts.old.entries - (if is_moment since m then 1 else 0) }
    ensures nonzero { AreNonzero counts.old.entries → AreNonzero counts.new.entries }
{
    let Some(count) = counts.get_mut(&since) else {
        return;
    };
    if *count > 1 {
        *count -= 1;
    } else {
        counts.remove(&since);
    }
}
