//! The groups of one tenant.

ghost use Rattle.std.specs.Prelude.{◌≡◌, ◌&&◌, not, filter, [], IfOk, OnErr, OnOk, None, false};
ghost use Rattle.std.specs.BTreeMap.{insert_entry};
ghost use Rattle.std.specs.List.{list_any};
ghost use Rattle.std.specs.List.Sorted.{IsStrictlySortedBy};
ghost use Rattle.std.specs.Map.{keys_of, lookup};
ghost use Rattle.std.specs.Option.{is_some, option_copied};
ghost use Rattle.am_labels.specs.Labels.{labels_cmp};
ghost use Rattle.am_members.specs.Grouped.{AreFull, AreGrouped, flush_of, flushed_at, held_at, kept_after, listed, living, members, nothing, put_in};
ghost use Rattle.am_members.specs.Members.{is_bare};
ghost use Rattle.am_members.specs.Names.{is_group, is_set, without};

use crate::change::{is_bare_in, join_all, leave_all};
use crate::group::Group;
use crate::known::Known;
use crate::members::Members;
use am_labels::LabelSet;
use am_text::Moment;
use std::alloc::{AllocError, Global};
use std::collections::BTreeMap;
use std::collections::btree_map::Entry;
use std::marker::Model;
use std::mem;

/// The alerts of a tenant, the members of their groups, and the last flush of each group.
#[derive(Drop)]
pub struct Index {
    alerts: BTreeMap<LabelSet, Known>,
    groups: BTreeMap<Group, Members>,
    flushes: BTreeMap<Group, Moment>,
    // a group without members may have a flush
    unswept: bool,
}

impl Model for Index {
    ghost use Rattle.am_members.specs.Grouped.{Grouped, IsIndex};

    ghost Value = { Grouped };

    ghost view = { λ index. record { alerts = index.alerts.entries; flushes = index.flushes.entries } };

    ghost invariant = { λ index. IsIndex index.alerts.entries index.groups.entries index.flushes.entries index.unswept };
}

impl Index {
    /// An index of no alerts.
    pub fn new(alloc: Global) -> Index
        ensures { result ≡ nothing }
    {
        Index {
            alerts: BTreeMap::new(alloc),
            groups: BTreeMap::new(alloc),
            flushes: BTreeMap::new(alloc),
            unswept: false,
        }
    }

    /// What is kept of an alert.
    pub fn known(&self, labels: &LabelSet) -> Option<&Known>
        ensures { option_copied result ≡ lookup (is_set labels.now) self.now.alerts }
    {
        self.alerts.get(labels)
    }

    /// All alerts.
    pub fn alerts(&self) -> &BTreeMap<LabelSet, Known>
        ensures { result.now.entries ≡ self.now.alerts }
    {
        &self.alerts
    }

    /// The members of a group.
    pub fn members(&self, group: &Group) -> Option<&Members>
        ensures { listed (option_copied result) ≡ members group.now self.now.alerts }
    {
        self.groups.get(group)
    }

    /// The moment of a group's last flush.
    pub fn last_flush(&self, group: &Group) -> Option<Moment>
        ensures { result ≡ flush_of group.now self.now.flushes }
    {
        self.flushes.get(group).copied()
    }

    /// Puts an alert in the place of any that has its labels. Out of memory leaves nothing.
    pub fn put(&mut self, alloc: Global, labels: &LabelSet, known: Known) -> Result<(), AllocError>
        ensures alerts { OnOk result (self.new.alerts ≡ put_in labels.now known self.old.alerts) }
        ensures flushes { OnOk result (self.new.flushes ≡ self.old.flushes) }
        ensures err { OnErr result (self.new ≡ nothing) }
    {
        match replace(alloc, &mut self.alerts, &mut self.groups, labels, known) {
            Ok(replaced) => {
                self.unswept |= replaced;
                Ok(())
            }
            Err(error) => {
                self.alerts.clear();
                self.groups.clear();
                self.flushes.clear();
                Err(error)
            }
        }
    }

    /// Removes an alert, and the flushes of the groups that lose their last member by it.
    pub fn remove(&mut self, labels: &LabelSet) -> Option<Known>
        ensures known { result ≡ lookup (is_set labels.now) self.old.alerts }
        ensures alerts { self.new.alerts ≡ without labels.now self.old.alerts }
        ensures flushes { self.new.flushes ≡ kept_after labels.now self.old }
    {
        let known = forget(&mut self.alerts, &mut self.groups, labels)?;
        forget_lost(&self.groups, known.groups.as_slice(), &mut self.flushes);
        Some(known)
    }

    /// The last flush of a group, which has members, is that at this moment.
    pub fn flush_at(&mut self, group: &Group, moment: Moment) -> Result<(), AllocError>
        requires { is_bare (members group.now self.old.alerts) ≡ false }
        ensures flushes { OnOk result (self.new.flushes ≡ flushed_at group.now moment self.old) }
        ensures alerts { self.new.alerts ≡ self.old.alerts }
        ensures err { OnErr result (self.new.flushes ≡ self.old.flushes) }
    {
        let own = group.copy()?;
        self.flushes.insert(own, moment)?;
        Ok(())
    }

    /// Puts these alerts, in the order of their labels, in the place of all, and answers those that were there. The
    /// flushes stay.
    pub fn rebuild(
        &mut self,
        alloc: Global,
        list: Vec<(LabelSet, Known)>,
    ) -> Result<BTreeMap<LabelSet, Known>, AllocError>
        requires { IsStrictlySortedBy labels_cmp (keys_of list.items) }
        ensures before { IfOk result (λ before. before.entries ≡ self.old.alerts) }
        ensures alerts { OnOk result (self.new.alerts ≡ list.items) }
        ensures flushes { self.new.flushes ≡ self.old.flushes }
        ensures err { OnErr result (self.new.alerts ≡ self.old.alerts) }
    {
        let mut alerts = BTreeMap::new(alloc);
        let mut groups = BTreeMap::new(alloc);
        hold_all(alloc, &mut alerts, &mut groups, list)?;
        let before = mem::replace(&mut self.alerts, alerts);
        self.groups = groups;
        self.unswept = true;
        Ok(before)
    }

    /// Forgets the flushes of groups without members.
    pub fn forget_empty(&mut self)
        ensures flushes { self.new.flushes ≡ living self.old }
        ensures alerts { self.new.alerts ≡ self.old.alerts }
    {
        if self.unswept {
            sweep(&self.groups, &mut self.flushes);
            self.unswept = false;
        }
    }
}

// Puts an alert in the place of any that has its labels. Tells whether there was one.
fn replace(
    alloc: Global,
    alerts: &mut BTreeMap<LabelSet, Known>,
    groups: &mut BTreeMap<Group, Members>,
    labels: &LabelSet,
    known: Known,
) -> Result<bool, AllocError>
    requires { AreGrouped alerts.old.entries groups.old.entries }
    ensures grouped { OnOk result (AreGrouped alerts.new.entries groups.new.entries) }
    ensures full { OnOk result (AreFull groups.old.entries → AreFull groups.new.entries) }
    ensures put { OnOk result (alerts.new.entries ≡ put_in labels.now known alerts.old.entries) }
    ensures replaced { IfOk result (λ replaced. replaced ≡ is_some (lookup (is_set labels.now) alerts.old.entries)) }
{
    let own = labels.copy()?;
    match alerts.entry(own)? {
        Entry::Vacant(place) => {
            join_all(alloc, groups, known.groups.as_slice(), labels, known.since)?;
            place.insert(known);
            Ok(false)
        }
        Entry::Occupied(mut place) => {
            leave_all(groups, place.get().groups.as_slice(), labels);
            join_all(alloc, groups, known.groups.as_slice(), labels, known.since)?;
            place.insert(known);
            Ok(true)
        }
    }
}

// Takes out an alert, which leaves its groups.
fn forget(
    alerts: &mut BTreeMap<LabelSet, Known>,
    groups: &mut BTreeMap<Group, Members>,
    labels: &LabelSet,
) -> Option<Known>
    requires { AreGrouped alerts.old.entries groups.old.entries }
    ensures grouped { AreGrouped alerts.new.entries groups.new.entries }
    ensures full { AreFull groups.old.entries → AreFull groups.new.entries }
    ensures left { alerts.new.entries ≡ without labels.now alerts.old.entries }
    ensures known { result ≡ lookup (is_set labels.now) alerts.old.entries }
{
    let known = alerts.remove(labels)?;
    leave_all(groups, known.groups.as_slice(), labels);
    Some(known)
}

// Adds an alert, which joins its groups.
fn hold(
    alloc: Global,
    alerts: &mut BTreeMap<LabelSet, Known>,
    groups: &mut BTreeMap<Group, Members>,
    labels: LabelSet,
    known: Known,
) -> Result<(), AllocError>
    requires grouped { AreGrouped alerts.old.entries groups.old.entries }
    requires absent { lookup (is_set labels) alerts.old.entries ≡ None }
    ensures grouped { OnOk result (AreGrouped alerts.new.entries groups.new.entries) }
    ensures full { OnOk result (AreFull groups.old.entries → AreFull groups.new.entries) }
    ensures held { OnOk result (alerts.new.entries ≡ insert_entry labels_cmp alerts.old.entries labels known) }
{
    join_all(alloc, groups, known.groups.as_slice(), &labels, known.since)?;
    alerts.insert(labels, known)?;
    Ok(())
}

// Adds alerts, which are in order, to none.
fn hold_all(
    alloc: Global,
    alerts: &mut BTreeMap<LabelSet, Known>,
    groups: &mut BTreeMap<Group, Members>,
    mut list: Vec<(LabelSet, Known)>,
) -> Result<(), AllocError>
    requires grouped { AreGrouped alerts.old.entries groups.old.entries }
    requires none { alerts.old.entries ≡ [] }
    requires rising { IsStrictlySortedBy labels_cmp (keys_of list.items) }
    ensures grouped { OnOk result (AreGrouped alerts.new.entries groups.new.entries) }
    ensures full { OnOk result (AreFull groups.old.entries → AreFull groups.new.entries) }
    ensures held { OnOk result (alerts.new.entries ≡ list.items) }
{
    while let Some((labels, known)) = list.pop() {
        hold(alloc, alerts, groups, labels, known)?;
    }
    Ok(())
}

// Forgets the flushes of those of the groups that have no members.
fn forget_lost(
    groups: &BTreeMap<Group, Members>,
    left: &[Group],
    flushes: &mut BTreeMap<Group, Moment>,
)
    ensures { flushes.new.entries ≡ filter (λ e. not (list_any (is_group e.0) left.now && is_bare (held_at e.0 groups.now.entries))) flushes.old.entries }
{
    for group in left {
        if is_bare_in(groups, group) {
            flushes.remove(group);
        }
    }
}

// Forgets the flushes of all groups that have no members.
fn sweep(groups: &BTreeMap<Group, Members>, flushes: &mut BTreeMap<Group, Moment>)
    ensures { flushes.new.entries ≡ filter (λ e. not (is_bare (held_at e.0 groups.now.entries))) flushes.old.entries }
{
    flushes.retain(|group, _| !is_bare_in(groups, group));
}
